// Runs of whose turns a part is told.

use crate::asking::MANY_STEPS;
use crate::rows::{Row, are_told};
use lrc_page::Size;
use lrc_states::Range;

// Node 1 is told what node 0 did up to the release of the lock, and not what it wrote behind that.
pub const LATE: &[u8] =
    b"# Node 1 asks for the lock while node 0 goes on after it gave it back. It is told what node 0 did up to the release, and
# not that it wrote word 1 afterwards: it reads 1, and then 0.
words 2;
locks 1;
if me == 0 {
    acquire 0;
    [0] = 1;
    release 0;
    [1] = 2;
} else {
    acquire 0;
    x = [0];
    y = [1];
    release 0;
    print x;
    print y;
}
";

pub const LATE_EVENTS: &[u8] =
    b"run 0\nrun 0\nrun 0\nrun 0\nrun 0\nrun 1\nrun 1\ndeliver 0\ndeliver 0\ndeliver 0\n\
      run 1\ndeliver 0\ndeliver 0\nrun 1\nrun 1\nrun 1\nrun 1\nrun 1\nrun 0\n";

const WRITTEN: &[u8] = b"words 70;
locks 1;
if me == 0 {
  [69] = 0 - 1;
  [3] = 5;
  [3] = 0;
} else {
  [69] = 18446744073709551615;
  [1] = 4;
  [1] = 6;
  [69] = 7;
}
acquire 0;
x = [69];
release 0;
";

const RACING: &[u8] = b"words 1;
locks 0;
if me == 0 {
  [0] = 5;
} else {
  x = [0];
  print x;
}
";

const LABELLED: &[u8] = b"#: word 0 count
#:words 1 3 buffer
#: lock 1 mutex # no
#: lock 1 mutex
#: word 0 again
words 5; locks 2; #: word 4 flag
x = 1;
";

const ROWS: &[Row] = &[
    // A grant is in flight before the part, and the turn of its taking is the first that is told.
    Row {
        name: "from one act to another",
        text: LATE,
        nodes: 2,
        steps: MANY_STEPS,
        collect: 0,
        size: Size::Words64,
        events: LATE_EVENTS,
        range: Range {
            from: Some(6),
            to: Some(7),
        },
        told: b"{\"nodes\":2,\"words\":2,\"locks\":1,\"page\":64,\"labels\":[],\"flight\":[{\"from\":0,\"to\":1,\
              \"number\":0,\"bytes\":52,\"message\":\"lock-grant 0 time 2,0 news 0.1[] 0.2[0]\"}],\
              \"states\":[{\"time\":[2,0],\"open\":3,\"waits\":\"no\",\"needs\":[],\"at\":18,\"names\":{},\
              \"locks\":[{\"lock\":0,\"token\":\"away\",\"released\":null,\"next\":null,\"recent\":1}],\
              \"episode\":0,\"manager\":{\"done\":0,\"arrived\":[],\"clean\":null},\"pages\":[{\"page\":0,\
              \"copy\":\"written\",\"words\":{\"0\":\"1\",\"1\":\"2\"},\"twin\":{\"0\":\"1\"},\"since\":null,\
              \"lacks\":[],\"keeper\":0,\"base\":null}],\"intervals\":[{\"interval\":\"0.1\",\"stamp\":[1,0],\
              \"pages\":[],\"changes\":{}},{\"interval\":\"0.2\",\"stamp\":[2,0],\"pages\":[0],\
              \"changes\":{\"0\":{\"0\":\"1\"}}}],\"collected\":[0,0],\"sent\":[1,1],\"taken\":[1,1]},{\"time\":[0,\
              1],\"open\":2,\"waits\":\"grant 0\",\"needs\":[],\"at\":11,\"names\":{},\"locks\":[{\"lock\":0,\
              \"token\":\"awaited\",\"released\":null,\"next\":null,\"recent\":null}],\"episode\":0,\
              \"manager\":null,\"pages\":[],\"intervals\":[{\"interval\":\"1.1\",\"stamp\":[0,1],\"pages\":[],\
              \"changes\":{}}],\"collected\":[0,0],\"sent\":[1,0],\"taken\":[0,0]}],\"written\":[{\"word\":0,\
              \"value\":\"1\",\"node\":0,\"position\":2,\"line\":7,\"interval\":2},{\"word\":1,\"value\":\"2\",\
              \"node\":0,\"position\":4,\"line\":9,\"interval\":3}]}\n\
              {\"turn\":9,\"event\":\"deliver 0\",\"node\":1,\"take\":{\"from\":0,\"to\":1,\"number\":0,\
              \"bytes\":52,\"message\":\"lock-grant 0 time 2,0 news 0.1[] 0.2[0]\"},\"again\":false,\
              \"act\":{\"position\":6,\"deed\":\"acquire 0\",\"line\":11,\"interval\":1},\"sends\":[],\
              \"state\":{\"time\":[2,1],\"open\":2,\"waits\":\"no\",\"needs\":[],\"at\":12,\"names\":{},\
              \"locks\":[{\"lock\":0,\"token\":\"held\",\"released\":null,\"next\":null,\"recent\":null}],\
              \"episode\":0,\"manager\":null,\"pages\":[{\"page\":0,\"copy\":\"invalid\",\"words\":{},\
              \"twin\":null,\"since\":[0,1],\"lacks\":[\"0.2\"],\"keeper\":0,\"base\":null}],\
              \"intervals\":[{\"interval\":\"0.1\",\"stamp\":[1,0],\"pages\":[],\"changes\":{}},\
              {\"interval\":\"0.2\",\"stamp\":[2,0],\"pages\":[0],\"changes\":{}}],\"collected\":[0,0],\"sent\":[1,\
              0],\"taken\":[1,0]}}\n\
              {\"turn\":10,\"event\":\"run 1\",\"node\":1,\"take\":null,\"again\":false,\"act\":null,\
              \"sends\":[{\"from\":1,\"to\":0,\"number\":1,\"bytes\":22,\
              \"message\":\"changes-request page 0 intervals 2\"}],\"state\":{\"time\":[2,1],\"open\":2,\
              \"waits\":\"page 0\",\"needs\":[{\"page\":0,\"base\":\"unneeded\",\"changes\":[\"0.2\"]}],\"at\":12,\
              \"names\":{},\"locks\":[{\"lock\":0,\"token\":\"held\",\"released\":null,\"next\":null,\
              \"recent\":null}],\"episode\":0,\"manager\":null,\"pages\":[{\"page\":0,\"copy\":\"invalid\",\
              \"words\":{},\"twin\":null,\"since\":[0,1],\"lacks\":[\"0.2\"],\"keeper\":0,\"base\":null}],\
              \"intervals\":[],\"collected\":[0,0],\"sent\":[2,0],\"taken\":[1,0]}}\n\
              {\"turn\":11,\"event\":\"deliver 0\",\"node\":0,\"take\":{\"from\":1,\"to\":0,\"number\":1,\
              \"bytes\":22,\"message\":\"changes-request page 0 intervals 2\"},\"again\":false,\"act\":null,\
              \"sends\":[{\"from\":0,\"to\":1,\"number\":1,\"bytes\":34,\
              \"message\":\"changes-reply page 0 changes 2[0=1]\"}],\"state\":{\"time\":[2,0],\"open\":3,\
              \"waits\":\"no\",\"needs\":[],\"at\":18,\"names\":{},\"locks\":[{\"lock\":0,\"token\":\"away\",\
              \"released\":null,\"next\":null,\"recent\":1}],\"episode\":0,\"manager\":{\"done\":0,\"arrived\":[],\
              \"clean\":null},\"pages\":[{\"page\":0,\"copy\":\"written\",\"words\":{\"0\":\"1\",\"1\":\"2\"},\
              \"twin\":{\"0\":\"1\"},\"since\":null,\"lacks\":[],\"keeper\":0,\"base\":null}],\"intervals\":[],\
              \"collected\":[0,0],\"sent\":[1,2],\"taken\":[1,2]}}\n\
              {\"turn\":12,\"event\":\"deliver 0\",\"node\":1,\"take\":{\"from\":0,\"to\":1,\"number\":1,\
              \"bytes\":34,\"message\":\"changes-reply page 0 changes 2[0=1]\"},\"again\":false,\
              \"act\":{\"position\":7,\"deed\":\"read 0 1\",\"line\":12,\"interval\":2},\"sends\":[],\
              \"state\":{\"time\":[2,1],\"open\":2,\"waits\":\"no\",\"needs\":[],\"at\":13,\"names\":{\"x\":\"1\"},\
              \"locks\":[{\"lock\":0,\"token\":\"held\",\"released\":null,\"next\":null,\"recent\":null}],\
              \"episode\":0,\"manager\":null,\"pages\":[{\"page\":0,\"copy\":\"valid\",\"words\":{\"0\":\"1\"},\
              \"twin\":null,\"since\":null,\"lacks\":[],\"keeper\":0,\"base\":null}],\
              \"intervals\":[{\"interval\":\"0.2\",\"stamp\":[2,0],\"pages\":[0],\
              \"changes\":{\"0\":{\"0\":\"1\"}}}],\"collected\":[0,0],\"sent\":[2,0],\"taken\":[2,0]}}\n",
    },
    // No turn is told, and all is as it is in the end.
    Row {
        name: "from behind the last act",
        text: LATE,
        nodes: 2,
        steps: MANY_STEPS,
        collect: 0,
        size: Size::Words64,
        events: LATE_EVENTS,
        range: Range {
            from: Some(14),
            to: None,
        },
        told: b"{\"nodes\":2,\"words\":2,\"locks\":1,\"page\":64,\"labels\":[],\"flight\":[],\
              \"states\":[{\"time\":[2,0],\"open\":3,\"waits\":\"ended\",\"needs\":[],\"at\":18,\"names\":{},\
              \"locks\":[{\"lock\":0,\"token\":\"away\",\"released\":null,\"next\":null,\"recent\":1}],\
              \"episode\":0,\"manager\":{\"done\":0,\"arrived\":[],\"clean\":null},\"pages\":[{\"page\":0,\
              \"copy\":\"written\",\"words\":{\"0\":\"1\",\"1\":\"2\"},\"twin\":{\"0\":\"1\"},\"since\":null,\
              \"lacks\":[],\"keeper\":0,\"base\":null}],\"intervals\":[{\"interval\":\"0.1\",\"stamp\":[1,0],\
              \"pages\":[],\"changes\":{}},{\"interval\":\"0.2\",\"stamp\":[2,0],\"pages\":[0],\
              \"changes\":{\"0\":{\"0\":\"1\"}}}],\"collected\":[0,0],\"sent\":[1,2],\"taken\":[1,2]},{\"time\":[2,\
              2],\"open\":3,\"waits\":\"ended\",\"needs\":[],\"at\":18,\"names\":{\"x\":\"1\"},\
              \"locks\":[{\"lock\":0,\"token\":\"free\",\"released\":[2,2],\"next\":null,\"recent\":null}],\
              \"episode\":0,\"manager\":null,\"pages\":[{\"page\":0,\"copy\":\"valid\",\"words\":{\"0\":\"1\"},\
              \"twin\":null,\"since\":null,\"lacks\":[],\"keeper\":0,\"base\":null}],\
              \"intervals\":[{\"interval\":\"0.1\",\"stamp\":[1,0],\"pages\":[],\"changes\":{}},\
              {\"interval\":\"0.2\",\"stamp\":[2,0],\"pages\":[0],\"changes\":{\"0\":{\"0\":\"1\"}}},\
              {\"interval\":\"1.1\",\"stamp\":[0,1],\"pages\":[],\"changes\":{}},{\"interval\":\"1.2\",\
              \"stamp\":[2,2],\"pages\":[],\"changes\":{}}],\"collected\":[0,0],\"sent\":[2,0],\"taken\":[2,0]}],\
              \"written\":[{\"word\":0,\"value\":\"1\",\"node\":0,\"position\":2,\"line\":7,\"interval\":2},\
              {\"word\":1,\"value\":\"2\",\"node\":0,\"position\":4,\"line\":9,\"interval\":3}]}\n",
    },
    // No turn is told, and all is as it is before the first act of the part.
    Row {
        name: "to an act before the first",
        text: RACING,
        nodes: 2,
        steps: MANY_STEPS,
        collect: 0,
        size: Size::Words64,
        events: b"run 0\nrun 1\nrun 0\nrun 1\nrun 0\nrun 1\nrun 1\n",
        range: Range {
            from: Some(3),
            to: Some(2),
        },
        told: b"{\"nodes\":2,\"words\":1,\"locks\":0,\"page\":64,\"labels\":[],\"flight\":[],\
              \"states\":[{\"time\":[0,0],\"open\":1,\"waits\":\"no\",\"needs\":[],\"at\":9,\"names\":{},\
              \"locks\":[],\"episode\":0,\"manager\":{\"done\":0,\"arrived\":[],\"clean\":null},\
              \"pages\":[{\"page\":0,\"copy\":\"written\",\"words\":{\"0\":\"5\"},\"twin\":{},\"since\":null,\
              \"lacks\":[],\"keeper\":0,\"base\":null}],\"intervals\":[],\"collected\":[0,0],\"sent\":[0,0],\
              \"taken\":[0,0]},{\"time\":[0,0],\"open\":1,\"waits\":\"no\",\"needs\":[],\"at\":6,\"names\":{},\
              \"locks\":[],\"episode\":0,\"manager\":null,\"pages\":[],\"intervals\":[],\"collected\":[0,0],\
              \"sent\":[0,0],\"taken\":[0,0]}],\"written\":[{\"word\":0,\"value\":\"5\",\"node\":0,\"position\":2,\
              \"line\":4,\"interval\":1}]}\n",
    },
    // One word was overwritten, one is 0 again, and one was written by both nodes.
    Row {
        name: "the last writes before a part",
        text: WRITTEN,
        nodes: 2,
        steps: MANY_STEPS,
        collect: 0,
        size: Size::Words64,
        events: b"run 0\nrun 1\nrun 0\nrun 1\nrun 0\nrun 1\nrun 0\nrun 1\nrun 0\nrun 1\nrun 0\nrun 1\ndeliver 0\n\
              run 0\ndeliver 0\nrun 0\ndeliver 0\nrun 1\ndeliver 0\ndeliver 0\nrun 1\nrun 1\n",
        range: Range {
            from: Some(8),
            to: Some(9),
        },
        told: b"{\"nodes\":2,\"words\":70,\"locks\":1,\"page\":64,\"labels\":[],\"flight\":[],\
              \"states\":[{\"time\":[0,0],\"open\":1,\"waits\":\"no\",\"needs\":[],\"at\":13,\"names\":{},\
              \"locks\":[{\"lock\":0,\"token\":\"free\",\"released\":[0,0],\"next\":null,\"recent\":0}],\
              \"episode\":0,\"manager\":{\"done\":0,\"arrived\":[],\"clean\":null},\"pages\":[{\"page\":0,\
              \"copy\":\"written\",\"words\":{},\"twin\":{},\"since\":null,\"lacks\":[],\"keeper\":0,\
              \"base\":null},{\"page\":1,\"copy\":\"written\",\"words\":{\"69\":\"18446744073709551615\"},\
              \"twin\":{},\"since\":null,\"lacks\":[],\"keeper\":0,\"base\":null}],\"intervals\":[],\
              \"collected\":[0,0],\"sent\":[0,0],\"taken\":[0,0]},{\"time\":[0,0],\"open\":1,\"waits\":\"no\",\
              \"needs\":[],\"at\":11,\"names\":{},\"locks\":[],\"episode\":0,\"manager\":null,\
              \"pages\":[{\"page\":0,\"copy\":\"written\",\"words\":{\"1\":\"6\"},\"twin\":{},\"since\":null,\
              \"lacks\":[],\"keeper\":0,\"base\":null},{\"page\":1,\"copy\":\"written\",\
              \"words\":{\"69\":\"18446744073709551615\"},\"twin\":{},\"since\":null,\"lacks\":[],\"keeper\":0,\
              \"base\":null}],\"intervals\":[],\"collected\":[0,0],\"sent\":[0,0],\"taken\":[0,0]}],\
              \"written\":[{\"word\":1,\"value\":\"6\",\"node\":1,\"position\":7,\"line\":10,\"interval\":1},\
              {\"word\":3,\"value\":\"0\",\"node\":0,\"position\":6,\"line\":6,\"interval\":1},{\"word\":69,\
              \"value\":\"18446744073709551615\",\"node\":1,\"position\":3,\"line\":8,\"interval\":1}]}\n\
              {\"turn\":8,\"event\":\"run 0\",\"node\":0,\"take\":null,\"again\":false,\"act\":{\"position\":8,\
              \"deed\":\"acquire 0\",\"line\":13,\"interval\":1},\"sends\":[],\"state\":{\"time\":[1,0],\"open\":2,\
              \"waits\":\"no\",\"needs\":[],\"at\":14,\"names\":{},\"locks\":[{\"lock\":0,\"token\":\"held\",\
              \"released\":null,\"next\":null,\"recent\":0}],\"episode\":0,\"manager\":{\"done\":0,\"arrived\":[],\
              \"clean\":null},\"pages\":[{\"page\":1,\"copy\":\"valid\",\
              \"words\":{\"69\":\"18446744073709551615\"},\"twin\":null,\"since\":null,\"lacks\":[],\"keeper\":0,\
              \"base\":null}],\"intervals\":[{\"interval\":\"0.1\",\"stamp\":[1,0],\"pages\":[0,1],\
              \"changes\":{\"0\":{},\"1\":{\"69\":\"18446744073709551615\"}}}],\"collected\":[0,0],\"sent\":[0,0],\
              \"taken\":[0,0]}}\n\
              {\"turn\":9,\"event\":\"run 1\",\"node\":1,\"take\":null,\"again\":false,\"act\":{\"position\":9,\
              \"deed\":\"write 69 7\",\"line\":11,\"interval\":1},\"sends\":[],\"state\":{\"time\":[0,0],\
              \"open\":1,\"waits\":\"no\",\"needs\":[],\"at\":13,\"names\":{},\"locks\":[],\"episode\":0,\
              \"manager\":null,\"pages\":[{\"page\":0,\"copy\":\"written\",\"words\":{\"1\":\"6\"},\"twin\":{},\
              \"since\":null,\"lacks\":[],\"keeper\":0,\"base\":null},{\"page\":1,\"copy\":\"written\",\
              \"words\":{\"69\":\"7\"},\"twin\":{},\"since\":null,\"lacks\":[],\"keeper\":0,\"base\":null}],\
              \"intervals\":[],\"collected\":[0,0],\"sent\":[0,0],\"taken\":[0,0]}}\n",
    },
    // Those that say something stand in the first line.
    Row {
        name: "label lines",
        text: LABELLED,
        nodes: 1,
        steps: MANY_STEPS,
        collect: 0,
        size: Size::Words64,
        events: b"run 0\nrun 0\n",
        range: Range {
            from: None,
            to: Some(0),
        },
        told: b"{\"nodes\":1,\"words\":5,\"locks\":2,\"page\":64,\"labels\":[{\"of\":\"word\",\"from\":0,\"to\":0,\
              \"name\":\"count\"},{\"of\":\"words\",\"from\":1,\"to\":3,\"name\":\"buffer\"},{\"of\":\"lock\",\
              \"from\":1,\"to\":1,\"name\":\"mutex\"},{\"of\":\"word\",\"from\":4,\"to\":4,\"name\":\"flag\"}],\
              \"flight\":[],\"states\":[{\"time\":[0],\"open\":1,\"waits\":\"no\",\"needs\":[],\"at\":7,\
              \"names\":{},\"locks\":[{\"lock\":0,\"token\":\"free\",\"released\":[0],\"next\":null,\"recent\":0},\
              {\"lock\":1,\"token\":\"free\",\"released\":[0],\"next\":null,\"recent\":0}],\"episode\":0,\
              \"manager\":{\"done\":0,\"arrived\":[],\"clean\":null},\"pages\":[],\"intervals\":[],\
              \"collected\":[0],\"sent\":[0],\"taken\":[0]}],\"written\":[]}\n\
              {\"turn\":0,\"event\":\"run 0\",\"node\":0,\"take\":null,\"again\":false,\"act\":{\"position\":0,\
              \"deed\":\"quiet\",\"line\":7,\"interval\":1},\"sends\":[],\"state\":{\"time\":[0],\"open\":1,\
              \"waits\":\"no\",\"needs\":[],\"at\":8,\"names\":{\"x\":\"1\"},\"locks\":[{\"lock\":0,\
              \"token\":\"free\",\"released\":[0],\"next\":null,\"recent\":0},{\"lock\":1,\"token\":\"free\",\
              \"released\":[0],\"next\":null,\"recent\":0}],\"episode\":0,\"manager\":{\"done\":0,\"arrived\":[],\
              \"clean\":null},\"pages\":[],\"intervals\":[],\"collected\":[0],\"sent\":[0],\"taken\":[0]}}\n",
    },
];

#[test]
fn turns_of_a_part(rt: HostRuntime) {
    are_told(&rt, rt.alloc(), ROWS);
}
