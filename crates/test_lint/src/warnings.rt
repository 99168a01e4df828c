// What is told of texts: of programs, their warnings.

use crate::checks::passes;
use lrc_lint::lint;
use std::alloc::{AllocError, Global};

/// A text, what is told of it, and the status.
struct Row {
    name: &'static str,
    text: &'static [u8],
    told: &'static [u8],
    status: u8,
}

const ROWS: &[Row] = &[
    Row {
        name: "a program without warnings",
        text: b"words 4; locks 2;\nacquire 0;\nx = [0];\n[0] = x + 1;\nrelease 0;\nbarrier;\nx = [0];\nprint x;\n",
        told: b"no warnings\n",
        status: 0,
    },
    Row {
        name: "no statements",
        text: b"words 1; locks 0;",
        told: b"no warnings\n",
        status: 0,
    },
    Row {
        name: "two of one token",
        text: b"words 4; locks 2;\nacquire 0; if me { while me { barrier; } }\nwhile me { barrier; } release 0;",
        told: b"-:2:12: warning: one block of this if has more barriers in it than the other, and a barrier waits for every node\n-:2:20: warning: how often nodes go round this loop may differ, and the barrier in it waits for every node\n-:2:20: warning: nothing in this loop changes its condition\n-:2:31: warning: lock 0 is held at this barrier: a node that waits for it does not come to its own\n-:3:1: warning: how often nodes go round this loop may differ, and the barrier in it waits for every node\n-:3:1: warning: nothing in this loop changes its condition\n-:3:12: warning: lock 0 is held at this barrier: a node that waits for it does not come to its own\n7 warnings\n",
        status: 0,
    },
    Row {
        name: "warnings of one token in the table's order",
        text: b"words 4; locks 2;\n#: nothing\n[9 / 0] = 1; acquire 2 - 2; acquire 0; while x { y = 1; }",
        told: b"-:2:1: warning: this label says nothing: a label is `#: word W NAME`, `#: words W V NAME` or `#: lock K NAME`\n-:3:4: warning: division by zero: this traps\n-:3:14: warning: lock 0 is never released\n-:3:29: warning: lock 0 is held here already: this traps\n-:3:40: warning: nothing in this loop changes its condition\n-:3:46: warning: x is read and never set, so it is 0\n-:3:50: warning: y is set and never read\n7 warnings\n",
        status: 0,
    },
    Row {
        name: "names read and never set, at their first reading, once",
        text: b"words 4; locks 2;\ny = x + x * z;\nprint y; if z { print x; }",
        told: b"-:2:5: warning: x is read and never set, so it is 0\n-:2:13: warning: z is read and never set, so it is 0\n2 warnings\n",
        status: 0,
    },
    Row {
        name: "names of labels as names of the text",
        text: b"words 4; locks 2;\n#: word 1 flag\n#: lock 0 mutex\n[1] = 1;\nprint flag; mutex = 1;\n#: word 2 x\n#: word 2 y\ny = 1; print y;",
        told: b"-:5:7: warning: flag is read and never set, so it is 0 (a label stands for nothing in the text)\n-:5:13: warning: mutex is set and never read (a label stands for nothing in the text)\n-:7:1: warning: this label says nothing: an earlier label has its word\n3 warnings\n",
        status: 0,
    },
    Row {
        name: "words, locks and names that an earlier one has; one that says nothing takes none",
        text: b"words 4; locks 2;\n#: words 0 2 a\n#: words 2 3 b\n#: word 1 c\n#: word 3 a\n#: lock 0 a\n#: lock 0 b\n#: lock 0 d\n#: lock 1 b\n#: word 3 c\n",
        told: b"-:3:1: warning: this label says nothing: an earlier label has its word\n-:4:1: warning: this label says nothing: an earlier label has its word\n-:5:1: warning: this label says nothing: an earlier label has its name\n-:6:1: warning: this label says nothing: an earlier label has its name\n-:8:1: warning: this label says nothing: an earlier label has its lock\n-:9:1: warning: this label says nothing: an earlier label has its name\n6 warnings\n",
        status: 0,
    },
    Row {
        name: "forms that are none",
        text: b"words 4; locks 2;\n#:\n#: word\n#:word 0\n#: word 0 a b\n#: word x a\n#: Word 0 a\n#: word -1 a\n#: words 0 a\n#: words 0 1 2 a\n#: word 0 print\n#: word 0 me\n#: word 0 3x\n#: word 0 a-b\n#: word 0 a[0]\n#: lock 0 locks\n#: word 0 a #\n# : word 0 a\n##: word 0 a\n # word 0 a\n",
        told: b"-:2:1: warning: this label says nothing: a label is `#: word W NAME`, `#: words W V NAME` or `#: lock K NAME`\n-:3:1: warning: this label says nothing: a label is `#: word W NAME`, `#: words W V NAME` or `#: lock K NAME`\n-:4:1: warning: this label says nothing: a label is `#: word W NAME`, `#: words W V NAME` or `#: lock K NAME`\n-:5:1: warning: this label says nothing: a label is `#: word W NAME`, `#: words W V NAME` or `#: lock K NAME`\n-:6:1: warning: this label says nothing: a label is `#: word W NAME`, `#: words W V NAME` or `#: lock K NAME`\n-:7:1: warning: this label says nothing: a label is `#: word W NAME`, `#: words W V NAME` or `#: lock K NAME`\n-:8:1: warning: this label says nothing: a label is `#: word W NAME`, `#: words W V NAME` or `#: lock K NAME`\n-:9:1: warning: this label says nothing: a label is `#: word W NAME`, `#: words W V NAME` or `#: lock K NAME`\n-:10:1: warning: this label says nothing: a label is `#: word W NAME`, `#: words W V NAME` or `#: lock K NAME`\n-:11:1: warning: this label says nothing: a label is `#: word W NAME`, `#: words W V NAME` or `#: lock K NAME`\n-:12:1: warning: this label says nothing: a label is `#: word W NAME`, `#: words W V NAME` or `#: lock K NAME`\n-:13:1: warning: this label says nothing: a label is `#: word W NAME`, `#: words W V NAME` or `#: lock K NAME`\n-:14:1: warning: this label says nothing: a label is `#: word W NAME`, `#: words W V NAME` or `#: lock K NAME`\n-:15:1: warning: this label says nothing: a label is `#: word W NAME`, `#: words W V NAME` or `#: lock K NAME`\n-:16:1: warning: this label says nothing: a label is `#: word W NAME`, `#: words W V NAME` or `#: lock K NAME`\n-:17:1: warning: this label says nothing: a label is `#: word W NAME`, `#: words W V NAME` or `#: lock K NAME`\n16 warnings\n",
        status: 0,
    },
    Row {
        name: "acquired again",
        text: b"words 4; locks 2;\nacquire 0; if me { acquire 0; } acquire 1; acquire 0;\nrelease 0; acquire 0; release 0; release 1;",
        told: b"-:2:20: warning: lock 0 is held here already: this traps\n-:2:44: warning: lock 0 is held here already: this traps\n2 warnings\n",
        status: 0,
    },
    Row {
        name: "released without an acquire",
        text: b"words 4; locks 2;\nrelease 1; acquire 0; release 0; release 0; release me; if me { release 1; }\nacquire 1; release 1;",
        told: b"-:2:1: warning: lock 1 is not held here: this traps\n-:2:34: warning: lock 0 is not held here: this traps\n-:2:65: warning: lock 1 is not held here: this traps\n3 warnings\n",
        status: 0,
    },
    Row {
        name: "barriers while locks are held, the least is told",
        text: b"words 4; locks 2;\n#: lock 0 mutex\nacquire 1; acquire 0; barrier; release 0; barrier; if me { release 1; } barrier;",
        told: b"-:3:23: warning: lock 0 (mutex) is held at this barrier: a node that waits for it does not come to its own\n-:3:43: warning: lock 1 is held at this barrier: a node that waits for it does not come to its own\n2 warnings\n",
        status: 0,
    },
    Row {
        name: "barriers in one way alone",
        text: b"words 4; locks 2;\nif me == 0 { barrier; }\nif me { barrier; } else { barrier; }\nif nodes - (me) { if 1 { barrier; } } else { barrier; barrier; }\nif 1 { barrier; }\nif me { print 1; } barrier;",
        told: b"-:2:1: warning: one block of this if has more barriers in it than the other, and a barrier waits for every node\n-:4:1: warning: one block of this if has more barriers in it than the other, and a barrier waits for every node\n2 warnings\n",
        status: 0,
    },
    Row {
        name: "no value is below 0",
        text: b"words 4; locks 2;\ni = 3; while i >= 0 { i = i - 1; }\nprint i < 0; print 0 > i; print 0 <= i; print (i) < (1 - 1);\nprint i > 0; print 0 < i; print i <= 0; print 0 >= i; print i == 0;",
        told: b"-:2:16: warning: no value is below 0: this is always 1\n-:3:9: warning: no value is below 0: this is always 0\n-:3:22: warning: no value is below 0: this is always 0\n-:3:35: warning: no value is below 0: this is always 1\n-:3:51: warning: no value is below 0: this is always 0\n5 warnings\n",
        status: 0,
    },
    Row {
        name: "division by the constant 0",
        text: b"words 4; locks 2;\nx = 1 / 0 + 7 % (2 - 2); print x / (1 / 0); print 1 / (1 / 0); print 0 / 1; print 1 / me;",
        told: b"-:2:7: warning: division by zero: this traps\n-:2:15: warning: division by zero: this traps\n-:2:39: warning: division by zero: this traps\n-:2:58: warning: division by zero: this traps\n4 warnings\n",
        status: 0,
    },
    Row {
        name: "words at and below the limit",
        text: b"words 4; locks 2;\n[4] = 1; [3] = 1; x = [2 * (1 + 1)]; print x;\n[18446744073709551615] = 1; [0 - 1] = 2; [me + 4] = 3;",
        told: b"-:2:2: warning: word 4 is not below words: this traps\n-:2:24: warning: word 4 is not below words: this traps\n-:3:2: warning: word 18446744073709551615 is not below words: this traps\n-:3:30: warning: word 18446744073709551615 is not below words: this traps\n4 warnings\n",
        status: 0,
    },
    Row {
        name: "locks at and below the limit",
        text: b"words 4; locks 2;\nacquire 1; release 1; acquire 2; release (1 + 1); acquire me + 2; release me + 2;",
        told: b"-:2:31: warning: lock 2 is not below locks: this traps\n-:2:42: warning: lock 2 is not below locks: this traps\n2 warnings\n",
        status: 0,
    },
    Row {
        name: "words read and never written",
        text: b"words 4; locks 2;\n#: word 1 flag\nx = [1]; x = [1]; y = [0]; z = [1 + 1]; print x + y + z; [0] = 1; [5] = 2; u = [6]; print u;",
        told: b"-:3:6: warning: word 1 (flag) is read and never written, so it is 0\n-:3:33: warning: word 2 is read and never written, so it is 0\n-:3:68: warning: word 5 is not below words: this traps\n-:3:81: warning: word 6 is not below words: this traps\n4 warnings\n",
        status: 0,
    },
    Row {
        name: "locks that are never released, once",
        text: b"words 4; locks 2;\n#: lock 1 m\nif me { acquire 1; } else { acquire 1; }\nacquire 0; release 0;",
        told: b"-:3:9: warning: lock 1 (m) is never released\n1 warning\n",
        status: 0,
    },
    Row {
        name: "loops whose condition nothing changes",
        text: b"words 4; locks 2;\nx = 1; while x == 1 { y = x; print y; barrier; }\nwhile me == 0 { acquire 0; release 0; } while 1 { } while nodes { } while x { x = 0; } while 0 { x = 1; }\nwhile 1 / (1 - 1) { }",
        told: b"-:2:8: warning: nothing in this loop changes its condition\n-:3:1: warning: nothing in this loop changes its condition\n-:3:53: warning: nothing in this loop changes its condition\n-:4:1: warning: nothing in this loop changes its condition\n-:4:9: warning: division by zero: this traps\n5 warnings\n",
        status: 0,
    },
    Row {
        name: "loops that learn nothing",
        text: b"words 4; locks 2;\n[0] = 1; [1] = 1;\nf = 0; while f == 0 { f = [0]; }\nn = 0; f = 0; while f == 0 { f = [me]; n = n + 1; if n { f = [1]; } } print n;",
        told: b"-:3:8: warning: this loop learns of no write of another node: it has no acquire and no barrier\n-:4:15: warning: this loop learns of no write of another node: it has no acquire and no barrier\n2 warnings\n",
        status: 0,
    },
    Row {
        name: "an element read",
        text: b"words 4; locks 2;\nx = a[0];",
        told: b"-:2:6: error: unexpected `[`\n  x = a[0];\n       ^\n  there are no arrays: `a[i]` is `[W + i]` where a begins at word W\n  here may stand: an operator, a comparison, `;`\n",
        status: 1,
    },
];

/// What is told of a text that came from standard input.
fn is_told(alloc: Global, row: &Row) -> Result<bool, AllocError> {
    let linted = lint(alloc, b"-", row.text)?;
    match linted.parts.as_slice() {
        [part] => Ok(part.as_slice() == row.told && linted.status == row.status),
        _ => Ok(false),
    }
}

/// The name of the first row of which something else is told.
fn first_wrong(alloc: Global, rows: &'static [Row]) -> Option<&'static str> {
    for row in rows {
        match is_told(alloc, row) {
            Ok(true) => {}
            Ok(false) | Err(_) => return Some(row.name),
        }
    }
    None
}

#[test]
fn warnings_are_told(rt: HostRuntime) {
    passes(&rt, first_wrong(rt.alloc(), ROWS));
}
