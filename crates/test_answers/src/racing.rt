// Runs with races, and the groups of their lines.

use crate::checks::passes;
use crate::shell::{ALL_STEPS, Case, Question, first_wrong};

// Node 1 acquires the lock before node 0 writes word 1.
const LATE_GRANT_ACTS: &[u8] = b"0 quiet
0 acquire 0
0 write 0 1
0 release 0
0 write 1 2
1 quiet
1 acquire 0
1 read 0 1
1 read 1 0
1 release 0
1 print 1
1 print 0
1 end
0 end
";

// Node 1 gets the lock before node 0 writes word 1.
const LATE_GRANT: Case = Case {
    name: "late grant",
    text: b"words 2;
locks 1;
if me == 0 {
  acquire 0;
  [0] = 1;
  release 0;
  [1] = 2;
} else {
  acquire 0;
  x = [0];
  y = [1];
  release 0;
  print x;
  print y;
}
",
    nodes: 2,
    steps: ALL_STEPS,
    acts: LATE_GRANT_ACTS,
    first_race: Some(8),
    told: b"node 0 ended
node 1 prints 1
node 1 prints 0
node 1 ended
race line 7 write, line 11 read: 1
  word 1: node 0 interval 3 act 4 writes 2, node 1 interval 2 act 8 reads 0 (last written 2)
first race at act 8
",
};

// The same, with labels: those of a word that races, of one that does not, and of a lock.
const LATE_GRANT_LABELLED: Case = Case {
    name: "late grant, labelled",
    text: b"words 2; #: word 0 data
locks 1; #: word 1 flag
if me == 0 { #: lock 0 mutex
  acquire 0;
  [0] = 1;
  release 0;
  [1] = 2;
} else {
  acquire 0;
  x = [0];
  y = [1];
  release 0;
  print x;
  print y;
}
",
    nodes: 2,
    steps: ALL_STEPS,
    acts: LATE_GRANT_ACTS,
    first_race: Some(8),
    told: b"node 0 ended
node 1 prints 1
node 1 prints 0
node 1 ended
race line 7 write, line 11 read: 1
  word 1 (flag): node 0 interval 3 act 4 writes 2, node 1 interval 2 act 8 reads 0 (last written 2)
first race at act 8
",
};

// Groups stand by their least pair, and not by their lines.
const BY_LEAST_PAIR: Case = Case {
    name: "by least pair",
    text: b"words 3;
locks 0;
[2] = me;
x = [1];
[1] = me;
",
    nodes: 2,
    steps: ALL_STEPS,
    acts: b"1 write 2 1
1 read 1 0
1 write 1 1
1 end
0 write 2 0
0 read 1 0
0 write 1 0
0 end
",
    first_race: Some(4),
    told: b"node 0 ended
node 1 ended
race line 3 write, line 3 write: 1
  word 2: node 1 interval 1 act 0 writes 1, node 0 interval 1 act 4 writes 0
race line 5 write, line 4 read: 1
  word 1: node 1 interval 1 act 2 writes 1, node 0 interval 1 act 5 reads 0 (last written 1)
first race at act 4
",
};

// One line reads and writes: there is a group for each two kinds.
const BY_KINDS: Case = Case {
    name: "by kinds",
    text: b"words 1;
locks 1;
acquire me * 0 + 0; release 0;
x = [0]; [0] = me; acquire 0; release 0; [0] = 2;
",
    nodes: 2,
    steps: ALL_STEPS,
    acts: b"0 acquire 0
0 release 0
0 read 0 0
1 acquire 0
0 write 0 0
1 release 0
1 read 0 0
0 acquire 0
1 write 0 1
0 release 0
0 write 0 2
1 acquire 0
0 end
1 release 0
1 write 0 2
1 end
",
    first_race: Some(6),
    told: b"node 0 ended
node 1 ended
race line 4 write, line 4 read: 1
  word 0: node 0 interval 3 act 4 writes 0, node 1 interval 3 act 6 reads 0
race line 4 read, line 4 write: 1
  word 0: node 1 interval 3 act 6 reads 0, node 0 interval 5 act 10 writes 2
race line 4 write, line 4 write: 1
  word 0: node 0 interval 5 act 10 writes 2, node 1 interval 5 act 14 writes 2
first race at act 6
",
};

// Three named races of two lines, each by its first pair.
const THREE_OF_A_GROUP: Case = Case {
    name: "three of a group",
    text: b"words 1;
locks 0;
[0] = me;
[0] = me;
",
    nodes: 3,
    steps: ALL_STEPS,
    acts: b"0 write 0 0
1 write 0 1
2 write 0 2
0 write 0 0
1 write 0 1
2 write 0 2
0 end
1 end
2 end
",
    first_race: Some(1),
    told: b"node 0 ended
node 1 ended
node 2 ended
race line 3 write, line 3 write: 3
  word 0: node 0 interval 1 act 0 writes 0, node 1 interval 1 act 1 writes 1
first race at act 1
",
};

// Node 0 writes twice and node 1 reads and writes, all in one interval each: it is one race.
const ONE_NAMED: Case = Case {
    name: "one named",
    text: b"words 1;
locks 0;
if me == 0 {
  [0] = 1;
  [0] = 2;
} else {
  x = [0];
  [0] = 3;
}
",
    nodes: 2,
    steps: ALL_STEPS,
    acts: b"0 quiet
0 write 0 1
1 quiet
1 read 0 0
1 write 0 3
0 write 0 2
0 end
1 end
",
    first_race: Some(3),
    told: b"node 0 ended
node 1 ended
race line 4 write, line 7 read: 1
  word 0: node 0 interval 1 act 1 writes 1, node 1 interval 1 act 3 reads 0 (last written 1)
first race at act 3
",
};

const RACING: &[Case] = &[
    LATE_GRANT,
    LATE_GRANT_LABELLED,
    BY_LEAST_PAIR,
    BY_KINDS,
    THREE_OF_A_GROUP,
    ONE_NAMED,
];

#[test]
fn races_stand_in_groups_by_their_lines(rt: HostRuntime) {
    passes(&rt, first_wrong(rt.alloc(), RACING, Question::Explained));
}
