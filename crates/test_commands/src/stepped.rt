// Documents of `step`, to the byte: the frame, and in it the lines of a run.

ghost use Rattle.std.specs.Prelude.{◌≡◌, false};
ghost use Rattle.lrc_cli_args.specs.Files.{names_events};

use crate::shell::{ON_ONE_NODE, done};
use lrc_cli_args::choice::{Choice, Nodes, Part, RunChoice, RunOptions, Shape, Way};
use lrc_envelope::Picker;
use lrc_step::{CLOSING, OPENING};
use std::sync::Wait;
use std::thread::Threads;

const OLDEST: Way<'static> = Way::Rounds(Picker::Oldest);

/// The turns of acts 4 to 6, of a run of two nodes.
const OF_TWO: Choice<'static> = Choice::Show(
    RunChoice {
        options: RunOptions {
            file: "some/where/program.tm",
            nodes: Nodes { count: 2 },
            ..ON_ONE_NODE
        },
        way: OLDEST,
    },
    Shape::Step(Part {
        from: Some(4),
        to: Some(6),
    }),
);

/// All turns, of a run of one node.
const OF_ONE: Choice<'static> = Choice::Show(
    RunChoice {
        options: RunOptions {
            file: "program.tm",
            ..ON_ONE_NODE
        },
        way: OLDEST,
    },
    Shape::Step(Part {
        from: None,
        to: None,
    }),
);

const RACING: &[u8] = br##"words 2;
locks 0;
if me == 0 {
  [0] = 1;
  [1] = 2;
} else {
  [0] = 3;
  y = [1];
  [1] = 4;
}
"##;

// The lines by pieces. The first group of races has no pair in this part.
const OF_RACING: &[&[u8]] = &[
    br##"{"program":"program.tm","##,
    br##""text":"words 2;\nlocks 0;\nif me == 0 {\n  [0] = 1;\n  [1] = 2;\n} else {\n  [0] = 3;\n  y = [1];\n  [1] = 4;\n}\n"}"##,
    b"\n",
    br##"{"nodes":2,"words":2,"locks":0,"page":64,"labels":[],"flight":[],"states":[{"time":[0,0],"open":1,"waits":"no","##,
    br##""needs":[],"at":5,"names":{},"locks":[],"episode":0,"manager":{"done":0,"arrived":[],"clean":null},"pages":[{"page":0,"##,
    br##""copy":"written","words":{"0":"1"},"twin":{},"since":null,"lacks":[],"keeper":0,"base":null}],"intervals":[],"##,
    br##""collected":[0,0],"sent":[0,0],"taken":[0,0]},{"time":[0,0],"open":1,"waits":"no","needs":[],"at":8,"names":{},"##,
    br##""locks":[],"episode":0,"manager":null,"pages":[{"page":0,"copy":"written","words":{"0":"3"},"twin":{},"since":null,"##,
    br##""lacks":[],"keeper":0,"base":null}],"intervals":[],"collected":[0,0],"sent":[0,0],"taken":[0,0]}],"written":[{"##,
    br##""word":0,"value":"3","node":1,"position":3,"line":7,"interval":1}],"flying":[],"##,
    br##""stand":[{"kind":"no"},{"kind":"no"}]}"##,
    b"\n",
    br##"{"turn":4,"event":"run 0","node":0,"take":null,"again":false,"act":{"position":4,"deed":"write 1 2","line":5,"##,
    br##""interval":1},"sends":[],"state":{"time":[0,0],"open":1,"waits":"no","needs":[],"at":11,"names":{},"locks":[],"##,
    br##""episode":0,"manager":{"done":0,"arrived":[],"clean":null},"pages":[{"page":0,"copy":"written","words":{"0":"1","##,
    br##""1":"2"},"twin":{},"since":null,"lacks":[],"keeper":0,"base":null}],"intervals":[],"collected":[0,0],"sent":[0,0],"##,
    br##""taken":[0,0]},"##,
    br##""by":{"kind":"run","of":0},"done":{"kind":"write","word":1,"value":"2"},"took":null,"sent":[],"stands":{"kind":"no"}}"##,
    b"\n",
    br##"{"turn":5,"event":"run 1","node":1,"take":null,"again":false,"act":{"position":5,"deed":"read 1 0","line":8,"##,
    br##""interval":1},"sends":[],"state":{"time":[0,0],"open":1,"waits":"no","needs":[],"at":9,"names":{},"locks":[],"##,
    br##""episode":0,"manager":null,"pages":[{"page":0,"copy":"written","words":{"0":"3"},"twin":{},"since":null,"lacks":[],"##,
    br##""keeper":0,"base":null}],"intervals":[],"collected":[0,0],"sent":[0,0],"taken":[0,0]},"##,
    br##""by":{"kind":"run","of":1},"done":{"kind":"read","word":1,"value":"0"},"took":null,"sent":[],"stands":{"kind":"no"}}"##,
    b"\n",
    br##"{"turn":6,"event":"run 0","node":0,"take":null,"again":false,"act":{"position":6,"deed":"end","line":11,"interval":1},"##,
    br##""sends":[],"state":{"time":[0,0],"open":1,"waits":"ended","needs":[],"at":11,"names":{},"locks":[],"episode":0,"##,
    br##""manager":{"done":0,"arrived":[],"clean":null},"pages":[{"page":0,"copy":"written","words":{"0":"1","1":"2"},"##,
    br##""twin":{},"since":null,"lacks":[],"keeper":0,"base":null}],"intervals":[],"collected":[0,0],"sent":[0,0],"##,
    br##""taken":[0,0]},"##,
    br##""by":{"kind":"run","of":0},"done":{"kind":"end"},"took":null,"sent":[],"stands":{"kind":"ended"}}"##,
    b"\n",
    br##"{"explain":["node 0 ended","node 1 ended","race line 4 write, line 7 write: 1","##,
    br##""  word 0: node 0 interval 1 act 2 writes 1, node 1 interval 1 act 3 writes 3","race line 5 write, line 8 read: 1","##,
    br##""  word 1: node 0 interval 1 act 4 writes 2, node 1 interval 1 act 5 reads 0 (last written 2)","first race at act 3"],"##,
    br##""ends":[{"end":"ended","line":11,"prints":0},{"end":"ended","line":11,"prints":0}],"deadlocks":[]}"##,
    b"\n",
    br##"{"race":1,"pairs":[],"of":[{"line":4,"kind":"write"},{"line":7,"kind":"write"}]}"##,
    b"\n",
    br##"{"race":2,"pairs":[[4,5]],"of":[{"line":5,"kind":"write"},{"line":8,"kind":"read"}]}"##,
    b"\n",
    br##"{"why":4,"lines":["act 4, node 0, line 5: write 1: 2","##,
    br##""  races with act 5, node 1, line 8: read 1: 0, and 1 more of node 1","##,
    br##""    act 4 is in interval 1 of node 0, and act 5 knows nothing of node 0","##,
    br##""    held at act 4: no lock, at act 5: no lock; both before any barrier","##,
    br##""  to order them: one lock held at both, a barrier between, or a lock that node 0 releases after act 4 and "##,
    br##"node 1 acquires after that and before act 5","  interval 1 of node 0, time 0,0","  knows nothing of node 1","##,
    br##""  nobody can learn of it: node 0 releases no lock and comes to no barrier after it"],"##,
    br##""races":[null,{"act":5,"of":[{"line":5,"kind":"write"},{"line":8,"kind":"read"}]}],"gives":null}"##,
    b"\n",
    br##"{"why":5,"lines":["act 5, node 1, line 8: read 1: 0","##,
    br##""  gives 0: no write of word 1 happens before it (last written: 2, by act 4)","##,
    br##""  races with act 4, node 0, line 5: write 1: 2","##,
    br##""    act 4 is in interval 1 of node 0, and act 5 knows nothing of node 0","##,
    br##""    held at act 4: no lock, at act 5: no lock; both before any barrier","##,
    br##""  to order them: one lock held at both, a barrier between, or a lock that node 0 releases after act 4 and "##,
    br##"node 1 acquires after that and before act 5","  interval 1 of node 1, time 0,0","  knows nothing of node 0"],"##,
    br##""races":[{"act":4,"of":[{"line":5,"kind":"write"},{"line":8,"kind":"read"}]},null],"##,
    br##""gives":{"last":[],"unknown":4}}"##,
    b"\n",
];

const MARKUP: &[u8] =
    br##"words 1; locks 0; # </script><script>alert(1)</script> </SCRIPT > <!-- <script> --> ]]>
x = 1; # &amp; &lt; &#60; "quoted" 'single' \ \\ \n \u003c \" `
if x < 2 { if x > 0 { [0] = x; } } # <script type="application/json">
"##;

// The text would end the element of the lines.
const OF_MARKUP: &[&[u8]] = &[
    br##"{"program":"program.tm","text":"words 1; locks 0; # \u003c/script\u003e\u003cscript\u003ealert(1)\u003c/script\u003e "##,
    br##"\u003c/SCRIPT \u003e \u003c!-- \u003cscript\u003e --\u003e ]]\u003e\n"##,
    br##"x = 1; # \u0026amp; \u0026lt; \u0026#60; \"quoted\" 'single' \\ \\\\ \\n \\u003c \\\" `\n"##,
    br##"if x \u003c 2 { if x \u003e 0 { [0] = x; } } # \u003cscript type=\"application/json\"\u003e\n"}"##,
    b"\n",
    br##"{"nodes":1,"words":1,"locks":0,"page":64,"labels":[],"flight":[],"states":[{"time":[0],"open":1,"waits":"no","##,
    br##""needs":[],"at":2,"names":{},"locks":[],"episode":0,"manager":{"done":0,"arrived":[],"clean":null},"pages":[],"##,
    br##""intervals":[],"collected":[0],"sent":[0],"taken":[0]}],"written":[],"flying":[],"stand":[{"kind":"no"}]}"##,
    b"\n",
    br##"{"turn":0,"event":"run 0","node":0,"take":null,"again":false,"act":{"position":0,"deed":"quiet","line":2,"##,
    br##""interval":1},"sends":[],"state":{"time":[0],"open":1,"waits":"no","needs":[],"at":3,"names":{"x":"1"},"locks":[],"##,
    br##""episode":0,"manager":{"done":0,"arrived":[],"clean":null},"pages":[],"intervals":[],"collected":[0],"sent":[0],"##,
    br##""taken":[0]},"##,
    br##""by":{"kind":"run","of":0},"done":{"kind":"quiet"},"took":null,"sent":[],"stands":{"kind":"no"}}"##,
    b"\n",
    br##"{"turn":1,"event":"run 0","node":0,"take":null,"again":false,"act":{"position":1,"deed":"quiet","line":3,"##,
    br##""interval":1},"sends":[],"state":{"time":[0],"open":1,"waits":"no","needs":[],"at":3,"names":{"x":"1"},"locks":[],"##,
    br##""episode":0,"manager":{"done":0,"arrived":[],"clean":null},"pages":[],"intervals":[],"collected":[0],"sent":[0],"##,
    br##""taken":[0]},"##,
    br##""by":{"kind":"run","of":0},"done":{"kind":"quiet"},"took":null,"sent":[],"stands":{"kind":"no"}}"##,
    b"\n",
    br##"{"turn":2,"event":"run 0","node":0,"take":null,"again":false,"act":{"position":2,"deed":"quiet","line":3,"##,
    br##""interval":1},"sends":[],"state":{"time":[0],"open":1,"waits":"no","needs":[],"at":3,"names":{"x":"1"},"locks":[],"##,
    br##""episode":0,"manager":{"done":0,"arrived":[],"clean":null},"pages":[],"intervals":[],"collected":[0],"sent":[0],"##,
    br##""taken":[0]},"##,
    br##""by":{"kind":"run","of":0},"done":{"kind":"quiet"},"took":null,"sent":[],"stands":{"kind":"no"}}"##,
    b"\n",
    br##"{"turn":3,"event":"run 0","node":0,"take":null,"again":false,"act":{"position":3,"deed":"write 0 1","line":3,"##,
    br##""interval":1},"sends":[],"state":{"time":[0],"open":1,"waits":"no","needs":[],"at":4,"names":{"x":"1"},"locks":[],"##,
    br##""episode":0,"manager":{"done":0,"arrived":[],"clean":null},"pages":[{"page":0,"copy":"written","words":{"0":"1"},"##,
    br##""twin":{},"since":null,"lacks":[],"keeper":0,"base":null}],"intervals":[],"collected":[0],"sent":[0],"taken":[0]},"##,
    br##""by":{"kind":"run","of":0},"done":{"kind":"write","word":0,"value":"1"},"took":null,"sent":[],"stands":{"kind":"no"}}"##,
    b"\n",
    br##"{"turn":4,"event":"run 0","node":0,"take":null,"again":false,"act":{"position":4,"deed":"end","line":4,"interval":1},"##,
    br##""sends":[],"state":{"time":[0],"open":1,"waits":"ended","needs":[],"at":4,"names":{"x":"1"},"locks":[],"episode":0,"##,
    br##""manager":{"done":0,"arrived":[],"clean":null},"pages":[{"page":0,"copy":"written","words":{"0":"1"},"twin":{},"##,
    br##""since":null,"lacks":[],"keeper":0,"base":null}],"intervals":[],"collected":[0],"sent":[0],"taken":[0]},"##,
    br##""by":{"kind":"run","of":0},"done":{"kind":"end"},"took":null,"sent":[],"stands":{"kind":"ended"}}"##,
    b"\n",
    br##"{"explain":["node 0 ended"],"ends":[{"end":"ended","line":4,"prints":0}],"deadlocks":[]}"##,
    b"\n",
];

/// What is left of a text behind a piece that it begins with.
fn rest_behind<'t>(text: &'t [u8], piece: &[u8]) -> Option<&'t [u8]> {
    if text.starts_with(piece) {
        text.get(piece.len()..)
    } else {
        None
    }
}

/// What is left of a document behind the frame's opening and these pieces of its lines.
fn rest_behind_lines<'t>(document: &'t [u8], lines: &[&[u8]]) -> Option<&'t [u8]> {
    let mut rest = rest_behind(document, OPENING)?;
    for line in lines {
        rest = rest_behind(rest, line)?;
    }
    Some(rest)
}

/// Whether the document of a run of this text has just these lines in the frame.
fn has_lines<R: Threads + Wait + Sync + AllocGlobal>(
    rt: &R,
    choice: &Choice<'_>,
    text: &[u8],
    lines: &[&[u8]],
    status: u8,
) -> bool
    requires { false ≡ names_events choice.now }
{
    let run = done(rt, choice, text, None);
    match rest_behind_lines(&run.out, lines) {
        Some(rest) => rest == CLOSING && run.err.is_empty() && run.status == status,
        None => false,
    }
}

#[test]
fn the_document_of_a_part_is_this_to_the_byte(rt: HostRuntime) {
    assert!(rt; has_lines(&rt, &OF_TWO, RACING, OF_RACING, 3));
}

#[test]
fn the_document_of_a_text_with_markup_is_this_to_the_byte(rt: HostRuntime) {
    assert!(rt; has_lines(&rt, &OF_ONE, MARKUP, OF_MARKUP, 0));
}
