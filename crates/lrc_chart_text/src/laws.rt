// What always holds of pictures as text. Each function is a theorem: its body is empty, and its clause is the law.

ghost use Rattle.lrc_chart_text.specs.Short.{NoLineIsLonger};

/// No line is longer than the 100 columns of a terminal, if the picture has at most 16 nodes and row numbers below
/// 10,000.
pub fn no_line_is_longer_than_the_terminal()
    ensures { NoLineIsLonger }
{}
