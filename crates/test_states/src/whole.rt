// Runs whose turns are all told.

use crate::asking::{ALL, MANY_STEPS};
use crate::rows::{Row, are_told};
use lrc_page::Size;

const COLLECTED: &[u8] = b"words 1;
locks 0;
if me == 1 {
  [0] = 5;
}
barrier;
x = [0];
print x;
";

const ROWS: &[Row] = &[
    // No message is in flight, and there is no node 5.
    Row {
        name: "a run without turns",
        text: b"words 1;\nlocks 0;\nif me == 0 {\n  [0] = 5;\n} else {\n  x = [0];\n  print x;\n}\n",
        nodes: 2,
        steps: MANY_STEPS,
        collect: 0,
        size: Size::Words64,
        events: b"deliver 0\nrun 5\n",
        range: ALL,
        told: b"{\"nodes\":2,\"words\":1,\"locks\":0,\"page\":64,\"labels\":[],\"flight\":[],\
              \"states\":[{\"time\":[0,0],\"open\":1,\"waits\":\"no\",\"needs\":[],\"at\":3,\"names\":{},\
              \"locks\":[],\"episode\":0,\"manager\":{\"done\":0,\"arrived\":[],\"clean\":null},\"pages\":[],\
              \"intervals\":[],\"collected\":[0,0],\"sent\":[0,0],\"taken\":[0,0]},{\"time\":[0,0],\"open\":1,\
              \"waits\":\"no\",\"needs\":[],\"at\":3,\"names\":{},\"locks\":[],\"episode\":0,\"manager\":null,\
              \"pages\":[],\"intervals\":[],\"collected\":[0,0],\"sent\":[0,0],\"taken\":[0,0]}],\"written\":[]}\n",
    },
    // Node 0 ends in a trap, with a value of 64 bits in a name and in a word.
    Row {
        name: "a trap, and the greatest value",
        text: b"words 2;\nlocks 0;\nx = 0 - 1;\n[1] = x;\ny = 1;\n[2] = 1;\n",
        nodes: 1,
        steps: MANY_STEPS,
        collect: 0,
        size: Size::Words64,
        events: b"run 0\nrun 0\nrun 0\nrun 0\n",
        range: ALL,
        told: b"{\"nodes\":1,\"words\":2,\"locks\":0,\"page\":64,\"labels\":[],\"flight\":[],\
              \"states\":[{\"time\":[0],\"open\":1,\"waits\":\"no\",\"needs\":[],\"at\":3,\"names\":{},\
              \"locks\":[],\"episode\":0,\"manager\":{\"done\":0,\"arrived\":[],\"clean\":null},\"pages\":[],\
              \"intervals\":[],\"collected\":[0],\"sent\":[0],\"taken\":[0]}],\"written\":[]}\n\
              {\"turn\":0,\"event\":\"run 0\",\"node\":0,\"take\":null,\"again\":false,\"act\":{\"position\":0,\
              \"deed\":\"quiet\",\"line\":3,\"interval\":1},\"sends\":[],\"state\":{\"time\":[0],\"open\":1,\
              \"waits\":\"no\",\"needs\":[],\"at\":4,\"names\":{\"x\":\"18446744073709551615\"},\"locks\":[],\
              \"episode\":0,\"manager\":{\"done\":0,\"arrived\":[],\"clean\":null},\"pages\":[],\"intervals\":[],\
              \"collected\":[0],\"sent\":[0],\"taken\":[0]}}\n\
              {\"turn\":1,\"event\":\"run 0\",\"node\":0,\"take\":null,\"again\":false,\"act\":{\"position\":1,\
              \"deed\":\"write 1 18446744073709551615\",\"line\":4,\"interval\":1},\"sends\":[],\
              \"state\":{\"time\":[0],\"open\":1,\"waits\":\"no\",\"needs\":[],\"at\":5,\
              \"names\":{\"x\":\"18446744073709551615\"},\"locks\":[],\"episode\":0,\"manager\":{\"done\":0,\
              \"arrived\":[],\"clean\":null},\"pages\":[{\"page\":0,\"copy\":\"written\",\
              \"words\":{\"1\":\"18446744073709551615\"},\"twin\":{},\"since\":null,\"lacks\":[],\"keeper\":0,\
              \"base\":null}],\"intervals\":[],\"collected\":[0],\"sent\":[0],\"taken\":[0]}}\n\
              {\"turn\":2,\"event\":\"run 0\",\"node\":0,\"take\":null,\"again\":false,\"act\":{\"position\":2,\
              \"deed\":\"quiet\",\"line\":5,\"interval\":1},\"sends\":[],\"state\":{\"time\":[0],\"open\":1,\
              \"waits\":\"no\",\"needs\":[],\"at\":6,\"names\":{\"x\":\"18446744073709551615\",\"y\":\"1\"},\
              \"locks\":[],\"episode\":0,\"manager\":{\"done\":0,\"arrived\":[],\"clean\":null},\
              \"pages\":[{\"page\":0,\"copy\":\"written\",\"words\":{\"1\":\"18446744073709551615\"},\"twin\":{},\
              \"since\":null,\"lacks\":[],\"keeper\":0,\"base\":null}],\"intervals\":[],\"collected\":[0],\
              \"sent\":[0],\"taken\":[0]}}\n\
              {\"turn\":3,\"event\":\"run 0\",\"node\":0,\"take\":null,\"again\":false,\"act\":{\"position\":3,\
              \"deed\":\"trap 2\",\"line\":6,\"interval\":1},\"sends\":[],\"state\":{\"time\":[0],\"open\":1,\
              \"waits\":\"trapped 2\",\"needs\":[],\"at\":6,\"names\":{\"x\":\"18446744073709551615\",\"y\":\"1\"},\
              \"locks\":[],\"episode\":0,\"manager\":{\"done\":0,\"arrived\":[],\"clean\":null},\
              \"pages\":[{\"page\":0,\"copy\":\"written\",\"words\":{\"1\":\"18446744073709551615\"},\"twin\":{},\
              \"since\":null,\"lacks\":[],\"keeper\":0,\"base\":null}],\"intervals\":[],\"collected\":[0],\
              \"sent\":[0],\"taken\":[0]}}\n",
    },
    // A name goes back to 0, and the steps are used up.
    Row {
        name: "steps used up",
        text: b"words 1;\nlocks 0;\nx = 1;\nx = 0;\ny = 2;\nz = 3;\nx = 4;\n",
        nodes: 1,
        steps: 4,
        collect: 0,
        size: Size::Words64,
        events: b"run 0\nrun 0\nrun 0\nrun 0\n",
        range: ALL,
        told: b"{\"nodes\":1,\"words\":1,\"locks\":0,\"page\":64,\"labels\":[],\"flight\":[],\
              \"states\":[{\"time\":[0],\"open\":1,\"waits\":\"no\",\"needs\":[],\"at\":3,\"names\":{},\
              \"locks\":[],\"episode\":0,\"manager\":{\"done\":0,\"arrived\":[],\"clean\":null},\"pages\":[],\
              \"intervals\":[],\"collected\":[0],\"sent\":[0],\"taken\":[0]}],\"written\":[]}\n\
              {\"turn\":0,\"event\":\"run 0\",\"node\":0,\"take\":null,\"again\":false,\"act\":{\"position\":0,\
              \"deed\":\"quiet\",\"line\":3,\"interval\":1},\"sends\":[],\"state\":{\"time\":[0],\"open\":1,\
              \"waits\":\"no\",\"needs\":[],\"at\":4,\"names\":{\"x\":\"1\"},\"locks\":[],\"episode\":0,\
              \"manager\":{\"done\":0,\"arrived\":[],\"clean\":null},\"pages\":[],\"intervals\":[],\
              \"collected\":[0],\"sent\":[0],\"taken\":[0]}}\n\
              {\"turn\":1,\"event\":\"run 0\",\"node\":0,\"take\":null,\"again\":false,\"act\":{\"position\":1,\
              \"deed\":\"quiet\",\"line\":4,\"interval\":1},\"sends\":[],\"state\":{\"time\":[0],\"open\":1,\
              \"waits\":\"no\",\"needs\":[],\"at\":5,\"names\":{},\"locks\":[],\"episode\":0,\
              \"manager\":{\"done\":0,\"arrived\":[],\"clean\":null},\"pages\":[],\"intervals\":[],\
              \"collected\":[0],\"sent\":[0],\"taken\":[0]}}\n\
              {\"turn\":2,\"event\":\"run 0\",\"node\":0,\"take\":null,\"again\":false,\"act\":{\"position\":2,\
              \"deed\":\"quiet\",\"line\":5,\"interval\":1},\"sends\":[],\"state\":{\"time\":[0],\"open\":1,\
              \"waits\":\"no\",\"needs\":[],\"at\":6,\"names\":{\"y\":\"2\"},\"locks\":[],\"episode\":0,\
              \"manager\":{\"done\":0,\"arrived\":[],\"clean\":null},\"pages\":[],\"intervals\":[],\
              \"collected\":[0],\"sent\":[0],\"taken\":[0]}}\n\
              {\"turn\":3,\"event\":\"run 0\",\"node\":0,\"take\":null,\"again\":false,\"act\":{\"position\":3,\
              \"deed\":\"quiet\",\"line\":6,\"interval\":1},\"sends\":[],\"state\":{\"time\":[0],\"open\":1,\
              \"waits\":\"steps used up\",\"needs\":[],\"at\":7,\"names\":{\"y\":\"2\",\"z\":\"3\"},\"locks\":[],\
              \"episode\":0,\"manager\":{\"done\":0,\"arrived\":[],\"clean\":null},\"pages\":[],\"intervals\":[],\
              \"collected\":[0],\"sent\":[0],\"taken\":[0]}}\n",
    },
    // Node 0 holds the lock, and keeps that node 1 comes next, with its time.
    Row {
        name: "the successor of a held lock",
        text: b"words 1;\nlocks 1;\nacquire 0;\nrelease 0;\n",
        nodes: 3,
        steps: MANY_STEPS,
        collect: 0,
        size: Size::Words64,
        events: b"run 0\nrun 1\ndeliver 0\ndeliver 0\nrun 0\ndeliver 0\nrun 1\n",
        range: ALL,
        told: b"{\"nodes\":3,\"words\":1,\"locks\":1,\"page\":64,\"labels\":[],\"flight\":[],\
              \"states\":[{\"time\":[0,0,0],\"open\":1,\"waits\":\"no\",\"needs\":[],\"at\":3,\"names\":{},\
              \"locks\":[{\"lock\":0,\"token\":\"free\",\"released\":[0,0,0],\"next\":null,\"recent\":0}],\
              \"episode\":0,\"manager\":{\"done\":0,\"arrived\":[],\"clean\":null},\"pages\":[],\"intervals\":[],\
              \"collected\":[0,0,0],\"sent\":[0,0,0],\"taken\":[0,0,0]},{\"time\":[0,0,0],\"open\":1,\
              \"waits\":\"no\",\"needs\":[],\"at\":3,\"names\":{},\"locks\":[],\"episode\":0,\"manager\":null,\
              \"pages\":[],\"intervals\":[],\"collected\":[0,0,0],\"sent\":[0,0,0],\"taken\":[0,0,0]},{\"time\":[0,\
              0,0],\"open\":1,\"waits\":\"no\",\"needs\":[],\"at\":3,\"names\":{},\"locks\":[],\"episode\":0,\
              \"manager\":null,\"pages\":[],\"intervals\":[],\"collected\":[0,0,0],\"sent\":[0,0,0],\"taken\":[0,0,\
              0]}],\"written\":[]}\n\
              {\"turn\":0,\"event\":\"run 0\",\"node\":0,\"take\":null,\"again\":false,\"act\":{\"position\":0,\
              \"deed\":\"acquire 0\",\"line\":3,\"interval\":1},\"sends\":[],\"state\":{\"time\":[1,0,0],\
              \"open\":2,\"waits\":\"no\",\"needs\":[],\"at\":4,\"names\":{},\"locks\":[{\"lock\":0,\
              \"token\":\"held\",\"released\":null,\"next\":null,\"recent\":0}],\"episode\":0,\
              \"manager\":{\"done\":0,\"arrived\":[],\"clean\":null},\"pages\":[],\
              \"intervals\":[{\"interval\":\"0.1\",\"stamp\":[1,0,0],\"pages\":[],\"changes\":{}}],\
              \"collected\":[0,0,0],\"sent\":[0,0,0],\"taken\":[0,0,0]}}\n\
              {\"turn\":1,\"event\":\"run 1\",\"node\":1,\"take\":null,\"again\":false,\"act\":null,\
              \"sends\":[{\"from\":1,\"to\":0,\"number\":0,\"bytes\":26,\"message\":\"lock-request 0 time 0,1,\
              0\"}],\"state\":{\"time\":[0,1,0],\"open\":2,\"waits\":\"grant 0\",\"needs\":[],\"at\":3,\
              \"names\":{},\"locks\":[{\"lock\":0,\"token\":\"awaited\",\"released\":null,\"next\":null,\
              \"recent\":null}],\"episode\":0,\"manager\":null,\"pages\":[],\"intervals\":[{\"interval\":\"1.1\",\
              \"stamp\":[0,1,0],\"pages\":[],\"changes\":{}}],\"collected\":[0,0,0],\"sent\":[1,0,0],\"taken\":[0,\
              0,0]}}\n\
              {\"turn\":2,\"event\":\"deliver 0\",\"node\":0,\"take\":{\"from\":1,\"to\":0,\"number\":0,\
              \"bytes\":26,\"message\":\"lock-request 0 time 0,1,0\"},\"again\":false,\"act\":null,\
              \"sends\":[{\"from\":0,\"to\":0,\"number\":0,\"bytes\":27,\"message\":\"lock-forward 0 for 1 time 0,\
              1,0\"}],\"state\":{\"time\":[1,0,0],\"open\":2,\"waits\":\"no\",\"needs\":[],\"at\":4,\"names\":{},\
              \"locks\":[{\"lock\":0,\"token\":\"held\",\"released\":null,\"next\":null,\"recent\":1}],\
              \"episode\":0,\"manager\":{\"done\":0,\"arrived\":[],\"clean\":null},\"pages\":[],\"intervals\":[],\
              \"collected\":[0,0,0],\"sent\":[1,0,0],\"taken\":[0,1,0]}}\n\
              {\"turn\":3,\"event\":\"deliver 0\",\"node\":0,\"take\":{\"from\":0,\"to\":0,\"number\":0,\
              \"bytes\":27,\"message\":\"lock-forward 0 for 1 time 0,1,0\"},\"again\":false,\"act\":null,\
              \"sends\":[],\"state\":{\"time\":[1,0,0],\"open\":2,\"waits\":\"no\",\"needs\":[],\"at\":4,\
              \"names\":{},\"locks\":[{\"lock\":0,\"token\":\"held\",\"released\":null,\"next\":{\"node\":1,\
              \"time\":[0,1,0]},\"recent\":1}],\"episode\":0,\"manager\":{\"done\":0,\"arrived\":[],\
              \"clean\":null},\"pages\":[],\"intervals\":[],\"collected\":[0,0,0],\"sent\":[1,0,0],\"taken\":[1,1,\
              0]}}\n\
              {\"turn\":4,\"event\":\"run 0\",\"node\":0,\"take\":null,\"again\":false,\"act\":{\"position\":1,\
              \"deed\":\"release 0\",\"line\":4,\"interval\":2},\"sends\":[{\"from\":0,\"to\":1,\"number\":0,\
              \"bytes\":62,\"message\":\"lock-grant 0 time 2,0,0 news 0.1[] 0.2[]\"}],\"state\":{\"time\":[2,0,0],\
              \"open\":3,\"waits\":\"no\",\"needs\":[],\"at\":5,\"names\":{},\"locks\":[{\"lock\":0,\
              \"token\":\"away\",\"released\":null,\"next\":null,\"recent\":1}],\"episode\":0,\
              \"manager\":{\"done\":0,\"arrived\":[],\"clean\":null},\"pages\":[],\
              \"intervals\":[{\"interval\":\"0.2\",\"stamp\":[2,0,0],\"pages\":[],\"changes\":{}}],\
              \"collected\":[0,0,0],\"sent\":[1,1,0],\"taken\":[1,1,0]}}\n\
              {\"turn\":5,\"event\":\"deliver 0\",\"node\":1,\"take\":{\"from\":0,\"to\":1,\"number\":0,\
              \"bytes\":62,\"message\":\"lock-grant 0 time 2,0,0 news 0.1[] 0.2[]\"},\"again\":false,\
              \"act\":{\"position\":2,\"deed\":\"acquire 0\",\"line\":3,\"interval\":1},\"sends\":[],\
              \"state\":{\"time\":[2,1,0],\"open\":2,\"waits\":\"no\",\"needs\":[],\"at\":4,\"names\":{},\
              \"locks\":[{\"lock\":0,\"token\":\"held\",\"released\":null,\"next\":null,\"recent\":null}],\
              \"episode\":0,\"manager\":null,\"pages\":[],\"intervals\":[{\"interval\":\"0.1\",\"stamp\":[1,0,0],\
              \"pages\":[],\"changes\":{}},{\"interval\":\"0.2\",\"stamp\":[2,0,0],\"pages\":[],\"changes\":{}}],\
              \"collected\":[0,0,0],\"sent\":[1,0,0],\"taken\":[1,0,0]}}\n\
              {\"turn\":6,\"event\":\"run 1\",\"node\":1,\"take\":null,\"again\":false,\"act\":{\"position\":3,\
              \"deed\":\"release 0\",\"line\":4,\"interval\":2},\"sends\":[],\"state\":{\"time\":[2,2,0],\
              \"open\":3,\"waits\":\"no\",\"needs\":[],\"at\":5,\"names\":{},\"locks\":[{\"lock\":0,\
              \"token\":\"free\",\"released\":[2,2,0],\"next\":null,\"recent\":null}],\"episode\":0,\
              \"manager\":null,\"pages\":[],\"intervals\":[{\"interval\":\"1.2\",\"stamp\":[2,2,0],\"pages\":[],\
              \"changes\":{}}],\"collected\":[0,0,0],\"sent\":[1,0,0],\"taken\":[1,0,0]}}\n",
    },
    // One message is taken twice and stays in flight, and one is never taken.
    Row {
        name: "messages that stay in flight",
        text: b"words 1;\nlocks 0;\nbarrier;\n",
        nodes: 2,
        steps: MANY_STEPS,
        collect: 0,
        size: Size::Words64,
        events: b"run 0\nrun 1\nrepeat 0\nrepeat 0\ndeliver 1\n",
        range: ALL,
        told: b"{\"nodes\":2,\"words\":1,\"locks\":0,\"page\":64,\"labels\":[],\"flight\":[],\
              \"states\":[{\"time\":[0,0],\"open\":1,\"waits\":\"no\",\"needs\":[],\"at\":3,\"names\":{},\
              \"locks\":[],\"episode\":0,\"manager\":{\"done\":0,\"arrived\":[],\"clean\":null},\"pages\":[],\
              \"intervals\":[],\"collected\":[0,0],\"sent\":[0,0],\"taken\":[0,0]},{\"time\":[0,0],\"open\":1,\
              \"waits\":\"no\",\"needs\":[],\"at\":3,\"names\":{},\"locks\":[],\"episode\":0,\"manager\":null,\
              \"pages\":[],\"intervals\":[],\"collected\":[0,0],\"sent\":[0,0],\"taken\":[0,0]}],\"written\":[]}\n\
              {\"turn\":0,\"event\":\"run 0\",\"node\":0,\"take\":null,\"again\":false,\"act\":{\"position\":0,\
              \"deed\":\"arrive\",\"line\":3,\"interval\":1},\"sends\":[{\"from\":0,\"to\":0,\"number\":0,\
              \"bytes\":42,\"message\":\"arrive 1 time 1,0 news 0.1[]\"}],\"state\":{\"time\":[1,0],\"open\":2,\
              \"waits\":\"depart 1\",\"needs\":[],\"at\":3,\"names\":{},\"locks\":[],\"episode\":1,\
              \"manager\":{\"done\":0,\"arrived\":[],\"clean\":null},\"pages\":[],\
              \"intervals\":[{\"interval\":\"0.1\",\"stamp\":[1,0],\"pages\":[],\"changes\":{}}],\"collected\":[0,\
              0],\"sent\":[1,0],\"taken\":[0,0]}}\n\
              {\"turn\":1,\"event\":\"run 1\",\"node\":1,\"take\":null,\"again\":false,\"act\":{\"position\":1,\
              \"deed\":\"arrive\",\"line\":3,\"interval\":1},\"sends\":[{\"from\":1,\"to\":0,\"number\":0,\
              \"bytes\":42,\"message\":\"arrive 1 time 0,1 news 1.1[]\"}],\"state\":{\"time\":[0,1],\"open\":2,\
              \"waits\":\"depart 1\",\"needs\":[],\"at\":3,\"names\":{},\"locks\":[],\"episode\":1,\
              \"manager\":null,\"pages\":[],\"intervals\":[{\"interval\":\"1.1\",\"stamp\":[0,1],\"pages\":[],\
              \"changes\":{}}],\"collected\":[0,0],\"sent\":[1,0],\"taken\":[0,0]}}\n\
              {\"turn\":2,\"event\":\"repeat 0\",\"node\":0,\"take\":{\"from\":0,\"to\":0,\"number\":0,\
              \"bytes\":42,\"message\":\"arrive 1 time 1,0 news 0.1[]\"},\"again\":false,\"act\":null,\"sends\":[],\
              \"state\":{\"time\":[1,0],\"open\":2,\"waits\":\"depart 1\",\"needs\":[],\"at\":3,\"names\":{},\
              \"locks\":[],\"episode\":1,\"manager\":{\"done\":0,\"arrived\":[0],\"clean\":null},\"pages\":[],\
              \"intervals\":[],\"collected\":[0,0],\"sent\":[1,0],\"taken\":[1,0]}}\n\
              {\"turn\":3,\"event\":\"repeat 0\",\"node\":0,\"take\":{\"from\":0,\"to\":0,\"number\":0,\
              \"bytes\":42,\"message\":\"arrive 1 time 1,0 news 0.1[]\"},\"again\":true,\"act\":null,\"sends\":[],\
              \"state\":{\"time\":[1,0],\"open\":2,\"waits\":\"depart 1\",\"needs\":[],\"at\":3,\"names\":{},\
              \"locks\":[],\"episode\":1,\"manager\":{\"done\":0,\"arrived\":[0],\"clean\":null},\"pages\":[],\
              \"intervals\":[],\"collected\":[0,0],\"sent\":[1,0],\"taken\":[1,0]}}\n\
              {\"turn\":4,\"event\":\"deliver 1\",\"node\":0,\"take\":{\"from\":1,\"to\":0,\"number\":0,\
              \"bytes\":42,\"message\":\"arrive 1 time 0,1 news 1.1[]\"},\"again\":false,\"act\":null,\
              \"sends\":[{\"from\":0,\"to\":0,\"number\":1,\"bytes\":42,\"message\":\"depart 1 time 1,\
              1 news 1.1[]\"},{\"from\":0,\"to\":1,\"number\":0,\"bytes\":42,\"message\":\"depart 1 time 1,\
              1 news 0.1[]\"}],\"state\":{\"time\":[1,0],\"open\":2,\"waits\":\"depart 1\",\"needs\":[],\"at\":3,\
              \"names\":{},\"locks\":[],\"episode\":1,\"manager\":{\"done\":1,\"arrived\":[],\"clean\":null},\
              \"pages\":[],\"intervals\":[],\"collected\":[0,0],\"sent\":[2,1],\"taken\":[1,1]}}\n",
    },
    // The second time a message changes nothing.
    Row {
        name: "each message twice",
        text: b"words 1;\nlocks 0;\nbarrier;\n",
        nodes: 2,
        steps: MANY_STEPS,
        collect: 0,
        size: Size::Words64,
        events: b"run 0\nrun 1\nrepeat 0\ndeliver 0\nrepeat 0\ndeliver 0\nrepeat 0\ndeliver 0\nrun 0\nrepeat 0\n\
              run 1\ndeliver 0\n",
        range: ALL,
        told: b"{\"nodes\":2,\"words\":1,\"locks\":0,\"page\":64,\"labels\":[],\"flight\":[],\
              \"states\":[{\"time\":[0,0],\"open\":1,\"waits\":\"no\",\"needs\":[],\"at\":3,\"names\":{},\
              \"locks\":[],\"episode\":0,\"manager\":{\"done\":0,\"arrived\":[],\"clean\":null},\"pages\":[],\
              \"intervals\":[],\"collected\":[0,0],\"sent\":[0,0],\"taken\":[0,0]},{\"time\":[0,0],\"open\":1,\
              \"waits\":\"no\",\"needs\":[],\"at\":3,\"names\":{},\"locks\":[],\"episode\":0,\"manager\":null,\
              \"pages\":[],\"intervals\":[],\"collected\":[0,0],\"sent\":[0,0],\"taken\":[0,0]}],\"written\":[]}\n\
              {\"turn\":0,\"event\":\"run 0\",\"node\":0,\"take\":null,\"again\":false,\"act\":{\"position\":0,\
              \"deed\":\"arrive\",\"line\":3,\"interval\":1},\"sends\":[{\"from\":0,\"to\":0,\"number\":0,\
              \"bytes\":42,\"message\":\"arrive 1 time 1,0 news 0.1[]\"}],\"state\":{\"time\":[1,0],\"open\":2,\
              \"waits\":\"depart 1\",\"needs\":[],\"at\":3,\"names\":{},\"locks\":[],\"episode\":1,\
              \"manager\":{\"done\":0,\"arrived\":[],\"clean\":null},\"pages\":[],\
              \"intervals\":[{\"interval\":\"0.1\",\"stamp\":[1,0],\"pages\":[],\"changes\":{}}],\"collected\":[0,\
              0],\"sent\":[1,0],\"taken\":[0,0]}}\n\
              {\"turn\":1,\"event\":\"run 1\",\"node\":1,\"take\":null,\"again\":false,\"act\":{\"position\":1,\
              \"deed\":\"arrive\",\"line\":3,\"interval\":1},\"sends\":[{\"from\":1,\"to\":0,\"number\":0,\
              \"bytes\":42,\"message\":\"arrive 1 time 0,1 news 1.1[]\"}],\"state\":{\"time\":[0,1],\"open\":2,\
              \"waits\":\"depart 1\",\"needs\":[],\"at\":3,\"names\":{},\"locks\":[],\"episode\":1,\
              \"manager\":null,\"pages\":[],\"intervals\":[{\"interval\":\"1.1\",\"stamp\":[0,1],\"pages\":[],\
              \"changes\":{}}],\"collected\":[0,0],\"sent\":[1,0],\"taken\":[0,0]}}\n\
              {\"turn\":2,\"event\":\"repeat 0\",\"node\":0,\"take\":{\"from\":0,\"to\":0,\"number\":0,\
              \"bytes\":42,\"message\":\"arrive 1 time 1,0 news 0.1[]\"},\"again\":false,\"act\":null,\"sends\":[],\
              \"state\":{\"time\":[1,0],\"open\":2,\"waits\":\"depart 1\",\"needs\":[],\"at\":3,\"names\":{},\
              \"locks\":[],\"episode\":1,\"manager\":{\"done\":0,\"arrived\":[0],\"clean\":null},\"pages\":[],\
              \"intervals\":[],\"collected\":[0,0],\"sent\":[1,0],\"taken\":[1,0]}}\n\
              {\"turn\":3,\"event\":\"deliver 0\",\"node\":0,\"take\":{\"from\":0,\"to\":0,\"number\":0,\
              \"bytes\":42,\"message\":\"arrive 1 time 1,0 news 0.1[]\"},\"again\":true,\"act\":null,\"sends\":[],\
              \"state\":{\"time\":[1,0],\"open\":2,\"waits\":\"depart 1\",\"needs\":[],\"at\":3,\"names\":{},\
              \"locks\":[],\"episode\":1,\"manager\":{\"done\":0,\"arrived\":[0],\"clean\":null},\"pages\":[],\
              \"intervals\":[],\"collected\":[0,0],\"sent\":[1,0],\"taken\":[1,0]}}\n\
              {\"turn\":4,\"event\":\"repeat 0\",\"node\":0,\"take\":{\"from\":1,\"to\":0,\"number\":0,\
              \"bytes\":42,\"message\":\"arrive 1 time 0,1 news 1.1[]\"},\"again\":false,\"act\":null,\
              \"sends\":[{\"from\":0,\"to\":0,\"number\":1,\"bytes\":42,\"message\":\"depart 1 time 1,\
              1 news 1.1[]\"},{\"from\":0,\"to\":1,\"number\":0,\"bytes\":42,\"message\":\"depart 1 time 1,\
              1 news 0.1[]\"}],\"state\":{\"time\":[1,0],\"open\":2,\"waits\":\"depart 1\",\"needs\":[],\"at\":3,\
              \"names\":{},\"locks\":[],\"episode\":1,\"manager\":{\"done\":1,\"arrived\":[],\"clean\":null},\
              \"pages\":[],\"intervals\":[],\"collected\":[0,0],\"sent\":[2,1],\"taken\":[1,1]}}\n\
              {\"turn\":5,\"event\":\"deliver 0\",\"node\":0,\"take\":{\"from\":1,\"to\":0,\"number\":0,\
              \"bytes\":42,\"message\":\"arrive 1 time 0,1 news 1.1[]\"},\"again\":true,\"act\":null,\"sends\":[],\
              \"state\":{\"time\":[1,0],\"open\":2,\"waits\":\"depart 1\",\"needs\":[],\"at\":3,\"names\":{},\
              \"locks\":[],\"episode\":1,\"manager\":{\"done\":1,\"arrived\":[],\"clean\":null},\"pages\":[],\
              \"intervals\":[],\"collected\":[0,0],\"sent\":[2,1],\"taken\":[1,1]}}\n\
              {\"turn\":6,\"event\":\"repeat 0\",\"node\":0,\"take\":{\"from\":0,\"to\":0,\"number\":1,\
              \"bytes\":42,\"message\":\"depart 1 time 1,1 news 1.1[]\"},\"again\":false,\"act\":{\"position\":2,\
              \"deed\":\"depart\",\"line\":3,\"interval\":2},\"sends\":[],\"state\":{\"time\":[1,1],\"open\":2,\
              \"waits\":\"no\",\"needs\":[],\"at\":4,\"names\":{},\"locks\":[],\"episode\":1,\
              \"manager\":{\"done\":1,\"arrived\":[],\"clean\":null},\"pages\":[],\
              \"intervals\":[{\"interval\":\"1.1\",\"stamp\":[0,1],\"pages\":[],\"changes\":{}}],\"collected\":[0,\
              0],\"sent\":[2,1],\"taken\":[2,1]}}\n\
              {\"turn\":7,\"event\":\"deliver 0\",\"node\":0,\"take\":{\"from\":0,\"to\":0,\"number\":1,\
              \"bytes\":42,\"message\":\"depart 1 time 1,1 news 1.1[]\"},\"again\":true,\"act\":null,\"sends\":[],\
              \"state\":{\"time\":[1,1],\"open\":2,\"waits\":\"no\",\"needs\":[],\"at\":4,\"names\":{},\
              \"locks\":[],\"episode\":1,\"manager\":{\"done\":1,\"arrived\":[],\"clean\":null},\"pages\":[],\
              \"intervals\":[],\"collected\":[0,0],\"sent\":[2,1],\"taken\":[2,1]}}\n\
              {\"turn\":8,\"event\":\"run 0\",\"node\":0,\"take\":null,\"again\":false,\"act\":{\"position\":3,\
              \"deed\":\"end\",\"line\":4,\"interval\":2},\"sends\":[],\"state\":{\"time\":[1,1],\"open\":2,\
              \"waits\":\"ended\",\"needs\":[],\"at\":4,\"names\":{},\"locks\":[],\"episode\":1,\
              \"manager\":{\"done\":1,\"arrived\":[],\"clean\":null},\"pages\":[],\"intervals\":[],\
              \"collected\":[0,0],\"sent\":[2,1],\"taken\":[2,1]}}\n\
              {\"turn\":9,\"event\":\"repeat 0\",\"node\":1,\"take\":{\"from\":0,\"to\":1,\"number\":0,\
              \"bytes\":42,\"message\":\"depart 1 time 1,1 news 0.1[]\"},\"again\":false,\"act\":{\"position\":4,\
              \"deed\":\"depart\",\"line\":3,\"interval\":2},\"sends\":[],\"state\":{\"time\":[1,1],\"open\":2,\
              \"waits\":\"no\",\"needs\":[],\"at\":4,\"names\":{},\"locks\":[],\"episode\":1,\"manager\":null,\
              \"pages\":[],\"intervals\":[{\"interval\":\"0.1\",\"stamp\":[1,0],\"pages\":[],\"changes\":{}}],\
              \"collected\":[0,0],\"sent\":[1,0],\"taken\":[1,0]}}\n\
              {\"turn\":10,\"event\":\"run 1\",\"node\":1,\"take\":null,\"again\":false,\"act\":{\"position\":5,\
              \"deed\":\"end\",\"line\":4,\"interval\":2},\"sends\":[],\"state\":{\"time\":[1,1],\"open\":2,\
              \"waits\":\"ended\",\"needs\":[],\"at\":4,\"names\":{},\"locks\":[],\"episode\":1,\"manager\":null,\
              \"pages\":[],\"intervals\":[],\"collected\":[0,0],\"sent\":[1,0],\"taken\":[1,0]}}\n\
              {\"turn\":11,\"event\":\"deliver 0\",\"node\":1,\"take\":{\"from\":0,\"to\":1,\"number\":0,\
              \"bytes\":42,\"message\":\"depart 1 time 1,1 news 0.1[]\"},\"again\":true,\"act\":null,\"sends\":[],\
              \"state\":{\"time\":[1,1],\"open\":2,\"waits\":\"ended\",\"needs\":[],\"at\":4,\"names\":{},\
              \"locks\":[],\"episode\":1,\"manager\":null,\"pages\":[],\"intervals\":[],\"collected\":[0,0],\
              \"sent\":[1,0],\"taken\":[1,0]}}\n",
    },
    // Words go by their own numbers, on whichever page they are.
    Row {
        name: "pages of 256 words",
        text: b"words 600;\nlocks 0;\n[255] = 1;\n[256] = 2;\n[599] = 3;\nbarrier;\n",
        nodes: 1,
        steps: MANY_STEPS,
        collect: 0,
        size: Size::Words256,
        events: b"run 0\nrun 0\nrun 0\nrun 0\ndeliver 0\ndeliver 0\nrun 0\n",
        range: ALL,
        told: b"{\"nodes\":1,\"words\":600,\"locks\":0,\"page\":256,\"labels\":[],\"flight\":[],\
              \"states\":[{\"time\":[0],\"open\":1,\"waits\":\"no\",\"needs\":[],\"at\":3,\"names\":{},\
              \"locks\":[],\"episode\":0,\"manager\":{\"done\":0,\"arrived\":[],\"clean\":null},\"pages\":[],\
              \"intervals\":[],\"collected\":[0],\"sent\":[0],\"taken\":[0]}],\"written\":[]}\n\
              {\"turn\":0,\"event\":\"run 0\",\"node\":0,\"take\":null,\"again\":false,\"act\":{\"position\":0,\
              \"deed\":\"write 255 1\",\"line\":3,\"interval\":1},\"sends\":[],\"state\":{\"time\":[0],\"open\":1,\
              \"waits\":\"no\",\"needs\":[],\"at\":4,\"names\":{},\"locks\":[],\"episode\":0,\
              \"manager\":{\"done\":0,\"arrived\":[],\"clean\":null},\"pages\":[{\"page\":0,\"copy\":\"written\",\
              \"words\":{\"255\":\"1\"},\"twin\":{},\"since\":null,\"lacks\":[],\"keeper\":0,\"base\":null}],\
              \"intervals\":[],\"collected\":[0],\"sent\":[0],\"taken\":[0]}}\n\
              {\"turn\":1,\"event\":\"run 0\",\"node\":0,\"take\":null,\"again\":false,\"act\":{\"position\":1,\
              \"deed\":\"write 256 2\",\"line\":4,\"interval\":1},\"sends\":[],\"state\":{\"time\":[0],\"open\":1,\
              \"waits\":\"no\",\"needs\":[],\"at\":5,\"names\":{},\"locks\":[],\"episode\":0,\
              \"manager\":{\"done\":0,\"arrived\":[],\"clean\":null},\"pages\":[{\"page\":0,\"copy\":\"written\",\
              \"words\":{\"255\":\"1\"},\"twin\":{},\"since\":null,\"lacks\":[],\"keeper\":0,\"base\":null},\
              {\"page\":1,\"copy\":\"written\",\"words\":{\"256\":\"2\"},\"twin\":{},\"since\":null,\"lacks\":[],\
              \"keeper\":0,\"base\":null}],\"intervals\":[],\"collected\":[0],\"sent\":[0],\"taken\":[0]}}\n\
              {\"turn\":2,\"event\":\"run 0\",\"node\":0,\"take\":null,\"again\":false,\"act\":{\"position\":2,\
              \"deed\":\"write 599 3\",\"line\":5,\"interval\":1},\"sends\":[],\"state\":{\"time\":[0],\"open\":1,\
              \"waits\":\"no\",\"needs\":[],\"at\":6,\"names\":{},\"locks\":[],\"episode\":0,\
              \"manager\":{\"done\":0,\"arrived\":[],\"clean\":null},\"pages\":[{\"page\":0,\"copy\":\"written\",\
              \"words\":{\"255\":\"1\"},\"twin\":{},\"since\":null,\"lacks\":[],\"keeper\":0,\"base\":null},\
              {\"page\":1,\"copy\":\"written\",\"words\":{\"256\":\"2\"},\"twin\":{},\"since\":null,\"lacks\":[],\
              \"keeper\":0,\"base\":null},{\"page\":2,\"copy\":\"written\",\"words\":{\"599\":\"3\"},\"twin\":{},\
              \"since\":null,\"lacks\":[],\"keeper\":0,\"base\":null}],\"intervals\":[],\"collected\":[0],\
              \"sent\":[0],\"taken\":[0]}}\n\
              {\"turn\":3,\"event\":\"run 0\",\"node\":0,\"take\":null,\"again\":false,\"act\":{\"position\":3,\
              \"deed\":\"arrive\",\"line\":6,\"interval\":1},\"sends\":[{\"from\":0,\"to\":0,\"number\":0,\
              \"bytes\":40,\"message\":\"arrive 1 time 1 news 0.1[0,1,2]\"}],\"state\":{\"time\":[1],\"open\":2,\
              \"waits\":\"depart 1\",\"needs\":[],\"at\":6,\"names\":{},\"locks\":[],\"episode\":1,\
              \"manager\":{\"done\":0,\"arrived\":[],\"clean\":null},\"pages\":[{\"page\":0,\"copy\":\"valid\",\
              \"words\":{\"255\":\"1\"},\"twin\":null,\"since\":null,\"lacks\":[],\"keeper\":0,\"base\":null},\
              {\"page\":1,\"copy\":\"valid\",\"words\":{\"256\":\"2\"},\"twin\":null,\"since\":null,\"lacks\":[],\
              \"keeper\":0,\"base\":null},{\"page\":2,\"copy\":\"valid\",\"words\":{\"599\":\"3\"},\"twin\":null,\
              \"since\":null,\"lacks\":[],\"keeper\":0,\"base\":null}],\"intervals\":[{\"interval\":\"0.1\",\
              \"stamp\":[1],\"pages\":[0,1,2],\"changes\":{\"0\":{\"255\":\"1\"},\"1\":{\"256\":\"2\"},\
              \"2\":{\"599\":\"3\"}}}],\"collected\":[0],\"sent\":[1],\"taken\":[0]}}\n\
              {\"turn\":4,\"event\":\"deliver 0\",\"node\":0,\"take\":{\"from\":0,\"to\":0,\"number\":0,\
              \"bytes\":40,\"message\":\"arrive 1 time 1 news 0.1[0,1,2]\"},\"again\":false,\"act\":null,\
              \"sends\":[{\"from\":0,\"to\":0,\"number\":1,\"bytes\":26,\"message\":\"depart 1 time 1 news -\"}],\
              \"state\":{\"time\":[1],\"open\":2,\"waits\":\"depart 1\",\"needs\":[],\"at\":6,\"names\":{},\
              \"locks\":[],\"episode\":1,\"manager\":{\"done\":1,\"arrived\":[],\"clean\":null},\
              \"pages\":[{\"page\":0,\"copy\":\"valid\",\"words\":{\"255\":\"1\"},\"twin\":null,\"since\":null,\
              \"lacks\":[],\"keeper\":0,\"base\":null},{\"page\":1,\"copy\":\"valid\",\"words\":{\"256\":\"2\"},\
              \"twin\":null,\"since\":null,\"lacks\":[],\"keeper\":0,\"base\":null},{\"page\":2,\"copy\":\"valid\",\
              \"words\":{\"599\":\"3\"},\"twin\":null,\"since\":null,\"lacks\":[],\"keeper\":0,\"base\":null}],\
              \"intervals\":[],\"collected\":[0],\"sent\":[2],\"taken\":[1]}}\n\
              {\"turn\":5,\"event\":\"deliver 0\",\"node\":0,\"take\":{\"from\":0,\"to\":0,\"number\":1,\
              \"bytes\":26,\"message\":\"depart 1 time 1 news -\"},\"again\":false,\"act\":{\"position\":4,\
              \"deed\":\"depart\",\"line\":6,\"interval\":2},\"sends\":[],\"state\":{\"time\":[1],\"open\":2,\
              \"waits\":\"no\",\"needs\":[],\"at\":7,\"names\":{},\"locks\":[],\"episode\":1,\
              \"manager\":{\"done\":1,\"arrived\":[],\"clean\":null},\"pages\":[{\"page\":0,\"copy\":\"valid\",\
              \"words\":{\"255\":\"1\"},\"twin\":null,\"since\":null,\"lacks\":[],\"keeper\":0,\"base\":null},\
              {\"page\":1,\"copy\":\"valid\",\"words\":{\"256\":\"2\"},\"twin\":null,\"since\":null,\"lacks\":[],\
              \"keeper\":0,\"base\":null},{\"page\":2,\"copy\":\"valid\",\"words\":{\"599\":\"3\"},\"twin\":null,\
              \"since\":null,\"lacks\":[],\"keeper\":0,\"base\":null}],\"intervals\":[],\"collected\":[0],\
              \"sent\":[2],\"taken\":[2]}}\n\
              {\"turn\":6,\"event\":\"run 0\",\"node\":0,\"take\":null,\"again\":false,\"act\":{\"position\":5,\
              \"deed\":\"end\",\"line\":7,\"interval\":2},\"sends\":[],\"state\":{\"time\":[1],\"open\":2,\
              \"waits\":\"ended\",\"needs\":[],\"at\":7,\"names\":{},\"locks\":[],\"episode\":1,\
              \"manager\":{\"done\":1,\"arrived\":[],\"clean\":null},\"pages\":[{\"page\":0,\"copy\":\"valid\",\
              \"words\":{\"255\":\"1\"},\"twin\":null,\"since\":null,\"lacks\":[],\"keeper\":0,\"base\":null},\
              {\"page\":1,\"copy\":\"valid\",\"words\":{\"256\":\"2\"},\"twin\":null,\"since\":null,\"lacks\":[],\
              \"keeper\":0,\"base\":null},{\"page\":2,\"copy\":\"valid\",\"words\":{\"599\":\"3\"},\"twin\":null,\
              \"since\":null,\"lacks\":[],\"keeper\":0,\"base\":null}],\"intervals\":[],\"collected\":[0],\
              \"sent\":[2],\"taken\":[2]}}\n",
    },
    // A collection: upkeep, base copies, an absent copy, and a page that is fetched whole.
    Row {
        name: "a collection",
        text: COLLECTED,
        nodes: 2,
        steps: MANY_STEPS,
        collect: 1,
        size: Size::Words64,
        events: b"run 0\nrun 1\nrun 0\nrun 1\ndeliver 0\nrun 1\ndeliver 0\ndeliver 0\ndeliver 0\ndeliver 0\n\
              deliver 0\ndeliver 0\ndeliver 0\nrun 0\nrun 1\ndeliver 0\nrun 1\ndeliver 0\nrun 0\nrun 1\nrun 0\n",
        range: ALL,
        told: b"{\"nodes\":2,\"words\":1,\"locks\":0,\"page\":64,\"labels\":[],\"flight\":[],\
              \"states\":[{\"time\":[0,0],\"open\":1,\"waits\":\"no\",\"needs\":[],\"at\":3,\"names\":{},\
              \"locks\":[],\"episode\":0,\"manager\":{\"done\":0,\"arrived\":[],\"clean\":null},\"pages\":[],\
              \"intervals\":[],\"collected\":[0,0],\"sent\":[0,0],\"taken\":[0,0]},{\"time\":[0,0],\"open\":1,\
              \"waits\":\"no\",\"needs\":[],\"at\":3,\"names\":{},\"locks\":[],\"episode\":0,\"manager\":null,\
              \"pages\":[],\"intervals\":[],\"collected\":[0,0],\"sent\":[0,0],\"taken\":[0,0]}],\"written\":[]}\n\
              {\"turn\":0,\"event\":\"run 0\",\"node\":0,\"take\":null,\"again\":false,\"act\":{\"position\":0,\
              \"deed\":\"quiet\",\"line\":3,\"interval\":1},\"sends\":[],\"state\":{\"time\":[0,0],\"open\":1,\
              \"waits\":\"no\",\"needs\":[],\"at\":6,\"names\":{},\"locks\":[],\"episode\":0,\
              \"manager\":{\"done\":0,\"arrived\":[],\"clean\":null},\"pages\":[],\"intervals\":[],\
              \"collected\":[0,0],\"sent\":[0,0],\"taken\":[0,0]}}\n\
              {\"turn\":1,\"event\":\"run 1\",\"node\":1,\"take\":null,\"again\":false,\"act\":{\"position\":1,\
              \"deed\":\"quiet\",\"line\":3,\"interval\":1},\"sends\":[],\"state\":{\"time\":[0,0],\"open\":1,\
              \"waits\":\"no\",\"needs\":[],\"at\":4,\"names\":{},\"locks\":[],\"episode\":0,\"manager\":null,\
              \"pages\":[],\"intervals\":[],\"collected\":[0,0],\"sent\":[0,0],\"taken\":[0,0]}}\n\
              {\"turn\":2,\"event\":\"run 0\",\"node\":0,\"take\":null,\"again\":false,\"act\":{\"position\":2,\
              \"deed\":\"arrive\",\"line\":6,\"interval\":1},\"sends\":[{\"from\":0,\"to\":0,\"number\":0,\
              \"bytes\":42,\"message\":\"arrive 1 time 1,0 news 0.1[] collect\"}],\"state\":{\"time\":[1,0],\
              \"open\":2,\"waits\":\"depart 1\",\"needs\":[],\"at\":6,\"names\":{},\"locks\":[],\"episode\":1,\
              \"manager\":{\"done\":0,\"arrived\":[],\"clean\":null},\"pages\":[],\
              \"intervals\":[{\"interval\":\"0.1\",\"stamp\":[1,0],\"pages\":[],\"changes\":{}}],\"collected\":[0,\
              0],\"sent\":[1,0],\"taken\":[0,0]}}\n\
              {\"turn\":3,\"event\":\"run 1\",\"node\":1,\"take\":null,\"again\":false,\"act\":{\"position\":3,\
              \"deed\":\"write 0 5\",\"line\":4,\"interval\":1},\"sends\":[],\"state\":{\"time\":[0,0],\"open\":1,\
              \"waits\":\"no\",\"needs\":[],\"at\":6,\"names\":{},\"locks\":[],\"episode\":0,\"manager\":null,\
              \"pages\":[{\"page\":0,\"copy\":\"written\",\"words\":{\"0\":\"5\"},\"twin\":{},\"since\":null,\
              \"lacks\":[],\"keeper\":0,\"base\":null}],\"intervals\":[],\"collected\":[0,0],\"sent\":[0,0],\
              \"taken\":[0,0]}}\n\
              {\"turn\":4,\"event\":\"deliver 0\",\"node\":0,\"take\":{\"from\":0,\"to\":0,\"number\":0,\
              \"bytes\":42,\"message\":\"arrive 1 time 1,0 news 0.1[] collect\"},\"again\":false,\"act\":null,\
              \"sends\":[],\"state\":{\"time\":[1,0],\"open\":2,\"waits\":\"depart 1\",\"needs\":[],\"at\":6,\
              \"names\":{},\"locks\":[],\"episode\":1,\"manager\":{\"done\":0,\"arrived\":[0],\"clean\":null},\
              \"pages\":[],\"intervals\":[],\"collected\":[0,0],\"sent\":[1,0],\"taken\":[1,0]}}\n\
              {\"turn\":5,\"event\":\"run 1\",\"node\":1,\"take\":null,\"again\":false,\"act\":{\"position\":4,\
              \"deed\":\"arrive\",\"line\":6,\"interval\":1},\"sends\":[{\"from\":1,\"to\":0,\"number\":0,\
              \"bytes\":44,\"message\":\"arrive 1 time 0,1 news 1.1[0] collect\"}],\"state\":{\"time\":[0,1],\
              \"open\":2,\"waits\":\"depart 1\",\"needs\":[],\"at\":6,\"names\":{},\"locks\":[],\"episode\":1,\
              \"manager\":null,\"pages\":[{\"page\":0,\"copy\":\"valid\",\"words\":{\"0\":\"5\"},\"twin\":null,\
              \"since\":null,\"lacks\":[],\"keeper\":0,\"base\":null}],\"intervals\":[{\"interval\":\"1.1\",\
              \"stamp\":[0,1],\"pages\":[0],\"changes\":{\"0\":{\"0\":\"5\"}}}],\"collected\":[0,0],\"sent\":[1,0],\
              \"taken\":[0,0]}}\n\
              {\"turn\":6,\"event\":\"deliver 0\",\"node\":0,\"take\":{\"from\":1,\"to\":0,\"number\":0,\
              \"bytes\":44,\"message\":\"arrive 1 time 0,1 news 1.1[0] collect\"},\"again\":false,\"act\":null,\
              \"sends\":[{\"from\":0,\"to\":0,\"number\":1,\"bytes\":44,\"message\":\"depart 1 time 1,\
              1 news 1.1[0] collect\"},{\"from\":0,\"to\":1,\"number\":0,\"bytes\":42,\
              \"message\":\"depart 1 time 1,1 news 0.1[] collect\"}],\"state\":{\"time\":[1,0],\"open\":2,\
              \"waits\":\"depart 1\",\"needs\":[],\"at\":6,\"names\":{},\"locks\":[],\"episode\":1,\
              \"manager\":{\"done\":1,\"arrived\":[],\"clean\":[]},\"pages\":[],\"intervals\":[],\"collected\":[0,\
              0],\"sent\":[2,1],\"taken\":[1,1]}}\n\
              {\"turn\":7,\"event\":\"deliver 0\",\"node\":0,\"take\":{\"from\":0,\"to\":0,\"number\":1,\
              \"bytes\":44,\"message\":\"depart 1 time 1,1 news 1.1[0] collect\"},\"again\":false,\"act\":null,\
              \"sends\":[{\"from\":0,\"to\":0,\"number\":2,\"bytes\":16,\"message\":\"clean 1\"}],\
              \"state\":{\"time\":[1,1],\"open\":2,\"waits\":\"discard 1\",\"needs\":[],\"at\":6,\"names\":{},\
              \"locks\":[],\"episode\":1,\"manager\":{\"done\":1,\"arrived\":[],\"clean\":[]},\
              \"pages\":[{\"page\":0,\"copy\":\"invalid\",\"words\":{},\"twin\":null,\"since\":[1,0],\
              \"lacks\":[\"1.1\"],\"keeper\":1,\"base\":null}],\"intervals\":[{\"interval\":\"1.1\",\"stamp\":[0,\
              1],\"pages\":[0],\"changes\":{}}],\"collected\":[0,0],\"sent\":[3,1],\"taken\":[2,1]}}\n\
              {\"turn\":8,\"event\":\"deliver 0\",\"node\":1,\"take\":{\"from\":0,\"to\":1,\"number\":0,\
              \"bytes\":42,\"message\":\"depart 1 time 1,1 news 0.1[] collect\"},\"again\":false,\"act\":null,\
              \"sends\":[{\"from\":1,\"to\":0,\"number\":1,\"bytes\":16,\"message\":\"clean 1\"}],\
              \"state\":{\"time\":[1,1],\"open\":2,\"waits\":\"discard 1\",\"needs\":[],\"at\":6,\"names\":{},\
              \"locks\":[],\"episode\":1,\"manager\":null,\"pages\":[{\"page\":0,\"copy\":\"valid\",\
              \"words\":{\"0\":\"5\"},\"twin\":null,\"since\":null,\"lacks\":[],\"keeper\":1,\
              \"base\":{\"0\":\"5\"}}],\"intervals\":[{\"interval\":\"0.1\",\"stamp\":[1,0],\"pages\":[],\
              \"changes\":{}}],\"collected\":[0,0],\"sent\":[2,0],\"taken\":[1,0]}}\n\
              {\"turn\":9,\"event\":\"deliver 0\",\"node\":0,\"take\":{\"from\":0,\"to\":0,\"number\":2,\
              \"bytes\":16,\"message\":\"clean 1\"},\"again\":false,\"act\":null,\"sends\":[],\
              \"state\":{\"time\":[1,1],\"open\":2,\"waits\":\"discard 1\",\"needs\":[],\"at\":6,\"names\":{},\
              \"locks\":[],\"episode\":1,\"manager\":{\"done\":1,\"arrived\":[],\"clean\":[0]},\
              \"pages\":[{\"page\":0,\"copy\":\"invalid\",\"words\":{},\"twin\":null,\"since\":[1,0],\
              \"lacks\":[\"1.1\"],\"keeper\":1,\"base\":null}],\"intervals\":[],\"collected\":[0,0],\"sent\":[3,1],\
              \"taken\":[3,1]}}\n\
              {\"turn\":10,\"event\":\"deliver 0\",\"node\":0,\"take\":{\"from\":1,\"to\":0,\"number\":1,\
              \"bytes\":16,\"message\":\"clean 1\"},\"again\":false,\"act\":null,\"sends\":[{\"from\":0,\"to\":0,\
              \"number\":3,\"bytes\":16,\"message\":\"discard 1\"},{\"from\":0,\"to\":1,\"number\":1,\"bytes\":16,\
              \"message\":\"discard 1\"}],\"state\":{\"time\":[1,1],\"open\":2,\"waits\":\"discard 1\",\
              \"needs\":[],\"at\":6,\"names\":{},\"locks\":[],\"episode\":1,\"manager\":{\"done\":1,\"arrived\":[],\
              \"clean\":null},\"pages\":[{\"page\":0,\"copy\":\"invalid\",\"words\":{},\"twin\":null,\"since\":[1,\
              0],\"lacks\":[\"1.1\"],\"keeper\":1,\"base\":null}],\"intervals\":[],\"collected\":[0,0],\"sent\":[4,\
              2],\"taken\":[3,2]}}\n\
              {\"turn\":11,\"event\":\"deliver 0\",\"node\":0,\"take\":{\"from\":0,\"to\":0,\"number\":3,\
              \"bytes\":16,\"message\":\"discard 1\"},\"again\":false,\"act\":{\"position\":5,\"deed\":\"depart\",\
              \"line\":6,\"interval\":2},\"sends\":[],\"state\":{\"time\":[1,1],\"open\":2,\"waits\":\"no\",\
              \"needs\":[],\"at\":7,\"names\":{},\"locks\":[],\"episode\":1,\"manager\":{\"done\":1,\"arrived\":[],\
              \"clean\":null},\"pages\":[{\"page\":0,\"copy\":\"absent\",\"words\":{},\"twin\":null,\"since\":null,\
              \"lacks\":[],\"keeper\":1,\"base\":null}],\"intervals\":[],\"collected\":[1,1],\"sent\":[4,2],\
              \"taken\":[4,2]}}\n\
              {\"turn\":12,\"event\":\"deliver 0\",\"node\":1,\"take\":{\"from\":0,\"to\":1,\"number\":1,\
              \"bytes\":16,\"message\":\"discard 1\"},\"again\":false,\"act\":{\"position\":6,\"deed\":\"depart\",\
              \"line\":6,\"interval\":2},\"sends\":[],\"state\":{\"time\":[1,1],\"open\":2,\"waits\":\"no\",\
              \"needs\":[],\"at\":7,\"names\":{},\"locks\":[],\"episode\":1,\"manager\":null,\
              \"pages\":[{\"page\":0,\"copy\":\"valid\",\"words\":{\"0\":\"5\"},\"twin\":null,\"since\":null,\
              \"lacks\":[],\"keeper\":1,\"base\":{\"0\":\"5\"}}],\"intervals\":[],\"collected\":[1,1],\"sent\":[2,\
              0],\"taken\":[2,0]}}\n\
              {\"turn\":13,\"event\":\"run 0\",\"node\":0,\"take\":null,\"again\":false,\"act\":null,\
              \"sends\":[{\"from\":0,\"to\":1,\"number\":2,\"bytes\":14,\"message\":\"page-request page 0\"}],\
              \"state\":{\"time\":[1,1],\"open\":2,\"waits\":\"page 0\",\"needs\":[{\"page\":0,\"base\":\"due\",\
              \"changes\":[]}],\"at\":7,\"names\":{},\"locks\":[],\"episode\":1,\"manager\":{\"done\":1,\
              \"arrived\":[],\"clean\":null},\"pages\":[{\"page\":0,\"copy\":\"absent\",\"words\":{},\"twin\":null,\
              \"since\":null,\"lacks\":[],\"keeper\":1,\"base\":null}],\"intervals\":[],\"collected\":[1,1],\
              \"sent\":[4,3],\"taken\":[4,2]}}\n\
              {\"turn\":14,\"event\":\"run 1\",\"node\":1,\"take\":null,\"again\":false,\"act\":{\"position\":7,\
              \"deed\":\"read 0 5\",\"line\":7,\"interval\":2},\"sends\":[],\"state\":{\"time\":[1,1],\"open\":2,\
              \"waits\":\"no\",\"needs\":[],\"at\":8,\"names\":{\"x\":\"5\"},\"locks\":[],\"episode\":1,\
              \"manager\":null,\"pages\":[{\"page\":0,\"copy\":\"valid\",\"words\":{\"0\":\"5\"},\"twin\":null,\
              \"since\":null,\"lacks\":[],\"keeper\":1,\"base\":{\"0\":\"5\"}}],\"intervals\":[],\"collected\":[1,\
              1],\"sent\":[2,0],\"taken\":[2,0]}}\n\
              {\"turn\":15,\"event\":\"deliver 0\",\"node\":1,\"take\":{\"from\":0,\"to\":1,\"number\":2,\
              \"bytes\":14,\"message\":\"page-request page 0\"},\"again\":false,\"act\":null,\
              \"sends\":[{\"from\":1,\"to\":0,\"number\":2,\"bytes\":528,\
              \"message\":\"page-reply page 0 words 0=5\"}],\"state\":{\"time\":[1,1],\"open\":2,\"waits\":\"no\",\
              \"needs\":[],\"at\":8,\"names\":{\"x\":\"5\"},\"locks\":[],\"episode\":1,\"manager\":null,\
              \"pages\":[{\"page\":0,\"copy\":\"valid\",\"words\":{\"0\":\"5\"},\"twin\":null,\"since\":null,\
              \"lacks\":[],\"keeper\":1,\"base\":{\"0\":\"5\"}}],\"intervals\":[],\"collected\":[1,1],\"sent\":[3,\
              0],\"taken\":[3,0]}}\n\
              {\"turn\":16,\"event\":\"run 1\",\"node\":1,\"take\":null,\"again\":false,\"act\":{\"position\":8,\
              \"deed\":\"print 5\",\"line\":8,\"interval\":2},\"sends\":[],\"state\":{\"time\":[1,1],\"open\":2,\
              \"waits\":\"no\",\"needs\":[],\"at\":9,\"names\":{\"x\":\"5\"},\"locks\":[],\"episode\":1,\
              \"manager\":null,\"pages\":[{\"page\":0,\"copy\":\"valid\",\"words\":{\"0\":\"5\"},\"twin\":null,\
              \"since\":null,\"lacks\":[],\"keeper\":1,\"base\":{\"0\":\"5\"}}],\"intervals\":[],\"collected\":[1,\
              1],\"sent\":[3,0],\"taken\":[3,0]}}\n\
              {\"turn\":17,\"event\":\"deliver 0\",\"node\":0,\"take\":{\"from\":1,\"to\":0,\"number\":2,\
              \"bytes\":528,\"message\":\"page-reply page 0 words 0=5\"},\"again\":false,\"act\":{\"position\":9,\
              \"deed\":\"read 0 5\",\"line\":7,\"interval\":2},\"sends\":[],\"state\":{\"time\":[1,1],\"open\":2,\
              \"waits\":\"no\",\"needs\":[],\"at\":8,\"names\":{\"x\":\"5\"},\"locks\":[],\"episode\":1,\
              \"manager\":{\"done\":1,\"arrived\":[],\"clean\":null},\"pages\":[{\"page\":0,\"copy\":\"valid\",\
              \"words\":{\"0\":\"5\"},\"twin\":null,\"since\":null,\"lacks\":[],\"keeper\":1,\"base\":null}],\
              \"intervals\":[],\"collected\":[1,1],\"sent\":[4,3],\"taken\":[4,3]}}\n\
              {\"turn\":18,\"event\":\"run 0\",\"node\":0,\"take\":null,\"again\":false,\"act\":{\"position\":10,\
              \"deed\":\"print 5\",\"line\":8,\"interval\":2},\"sends\":[],\"state\":{\"time\":[1,1],\"open\":2,\
              \"waits\":\"no\",\"needs\":[],\"at\":9,\"names\":{\"x\":\"5\"},\"locks\":[],\"episode\":1,\
              \"manager\":{\"done\":1,\"arrived\":[],\"clean\":null},\"pages\":[{\"page\":0,\"copy\":\"valid\",\
              \"words\":{\"0\":\"5\"},\"twin\":null,\"since\":null,\"lacks\":[],\"keeper\":1,\"base\":null}],\
              \"intervals\":[],\"collected\":[1,1],\"sent\":[4,3],\"taken\":[4,3]}}\n\
              {\"turn\":19,\"event\":\"run 1\",\"node\":1,\"take\":null,\"again\":false,\"act\":{\"position\":11,\
              \"deed\":\"end\",\"line\":9,\"interval\":2},\"sends\":[],\"state\":{\"time\":[1,1],\"open\":2,\
              \"waits\":\"ended\",\"needs\":[],\"at\":9,\"names\":{\"x\":\"5\"},\"locks\":[],\"episode\":1,\
              \"manager\":null,\"pages\":[{\"page\":0,\"copy\":\"valid\",\"words\":{\"0\":\"5\"},\"twin\":null,\
              \"since\":null,\"lacks\":[],\"keeper\":1,\"base\":{\"0\":\"5\"}}],\"intervals\":[],\"collected\":[1,\
              1],\"sent\":[3,0],\"taken\":[3,0]}}\n\
              {\"turn\":20,\"event\":\"run 0\",\"node\":0,\"take\":null,\"again\":false,\"act\":{\"position\":12,\
              \"deed\":\"end\",\"line\":9,\"interval\":2},\"sends\":[],\"state\":{\"time\":[1,1],\"open\":2,\
              \"waits\":\"ended\",\"needs\":[],\"at\":9,\"names\":{\"x\":\"5\"},\"locks\":[],\"episode\":1,\
              \"manager\":{\"done\":1,\"arrived\":[],\"clean\":null},\"pages\":[{\"page\":0,\"copy\":\"valid\",\
              \"words\":{\"0\":\"5\"},\"twin\":null,\"since\":null,\"lacks\":[],\"keeper\":1,\"base\":null}],\
              \"intervals\":[],\"collected\":[1,1],\"sent\":[4,3],\"taken\":[4,3]}}\n",
    },
];

#[test]
fn all_turns_of_runs(rt: HostRuntime) {
    are_told(&rt, rt.alloc(), ROWS);
}
