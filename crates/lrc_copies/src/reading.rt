// From copies to lazy reading. Each function is a theorem: its body is empty, and its clause is the law.

ghost use Rattle.lrc_copies.specs.ReadingLaws.{FittingValueMayBeRead, FittingCopyMayBeRead};

/// A value that fits the writes that happen before a read may be read: reading it is lazy.
pub fn fitting_value_may_be_read<A>()
    ensures { FittingValueMayBeRead A }
{}

/// A word of a copy may be read if the copy fits the intervals that its node's time covers, with the node's own
/// interval.
pub fn fitting_copy_may_be_read<A>()
    ensures { FittingCopyMayBeRead A }
{}
