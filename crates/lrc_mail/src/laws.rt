// What always holds of requests and of numbers taken. Each function is a law: its clauses are the statement, and there is
// nothing to do.

ghost use Rattle.std.specs.Prelude.{◌≡◌, ℕ, ◌<◌, ◌≤◌, List, All, length};
ghost use Rattle.std.specs.List.{range_with_len};
ghost use Rattle.lrc_protocol.specs.Pages.{Need};
ghost use Rattle.lrc_protocol.specs.Turn.{requests_of};
ghost use Rattle.lrc_mail.specs.declared.numbers.Span.{Span};
ghost use Rattle.lrc_mail.specs.Spans.{AreSpans, spanned};
ghost use Rattle.lrc_need.specs.Need.{DueBelow};

/// The requests for a page go to nodes of the run, if its keeper and all the makers that it asks are such nodes.
pub fn requests_go_to_nodes()
    ensures { (nodes : ℕ) (need : Need) → DueBelow nodes need.base
        → All (λ asked. asked.maker < nodes) need.asked
        → All (λ letter. letter.to < nodes) (requests_of need) }
{}

/// Numbers without a gap make at most one span, however many they are.
pub fn numbers_in_order_are_one_span()
    ensures { (spans : List Span) (first count : ℕ) → AreSpans spans
        → spanned spans ≡ range_with_len first count
        → length spans ≤ 1 }
{}
