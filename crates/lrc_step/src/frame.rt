// The frame of the document: what stands before the run's lines, and behind them.

/// The document before its lines: style, markup and the functions that show arrays as grids, up to the start of the element
/// `<script type="application/json" ..>` that holds the lines. Its head forbids the page to fetch anything.
pub const OPENING: &[u8] = br##"<!doctype html>
<html lang="en">
<head>
<meta charset="utf-8">
<meta name="viewport" content="width=device-width, initial-scale=1">
<meta http-equiv="Content-Security-Policy" content="default-src 'none'; style-src 'unsafe-inline'; script-src 'unsafe-inline'; img-src data:">
<link rel="icon" href="data:,">
<title>treadmarks step</title>
<style>
:root {
  color-scheme: light dark;
  --paper: #ffffff; --field: #f3f5f8; --line: #c3cad4; --soft: #566070; --ink: #14171c;
  --now: #0b57d0; --now-field: #dde9ff; --changed: #ffe38f; --mark: #b57a00; --off: #9a4a00; --off-field: #ffe4cc; --race: #b3001e;
}
@media screen and (prefers-color-scheme: dark) {
  :root {
    --paper: #101317; --field: #1a1f26; --line: #414a56; --soft: #a9b3c0; --ink: #f1f4f8;
    --now: #8fb8ff; --now-field: #1b3157; --changed: #5c4800; --mark: #f0c24b; --off: #ffb978; --off-field: #3d2a16; --race: #ff8f88;
  }
}
* { box-sizing: border-box; margin: 0; padding: 0; }
html { font: clamp(15px, min(0.8vw + 5.6px, 0.4vw + 13.3px), 40px)/1.35 system-ui, "Segoe UI", "DejaVu Sans", sans-serif; }
body { display: grid; grid-template-rows: auto minmax(0, 1fr) auto auto; gap: .5rem; height: 100dvh; padding: .5rem .9rem;
  background: var(--paper); color: var(--ink); }
h2, h3 { font: inherit; }
ol, ul { list-style: none; }
code, .number, .time, .value, kbd { font-family: ui-monospace, "Cascadia Mono", Menlo, "DejaVu Sans Mono", monospace; }
a { color: var(--now); }
:focus-visible { outline: .18rem solid var(--now); outline-offset: .1rem; }
.caption { color: var(--soft); font-size: .85em; font-weight: 400; }
.badge { display: inline-block; min-width: 1.5em; padding: 0 .3em; border-radius: .75em; background: var(--ink); color: var(--paper);
  font-weight: 700; text-align: center; text-indent: 0; line-height: 1.5; }
.race-mark { padding: .05em .45em; border-radius: .25em; background: var(--race); color: var(--paper); font-weight: 700; white-space: nowrap; }
.changed { background: var(--changed); box-shadow: inset 0 -.14em var(--mark); border-radius: .2em; }
.off { color: var(--off); font-weight: 700; }

#headline { font-size: 1.75rem; font-weight: 650; line-height: 1.2; }
#headline .race-mark { margin-left: .6em; font-size: 1.1rem; vertical-align: .15em; }
#because { min-height: 1.35em; font-size: 1.1rem; }

main { display: grid; gap: .7rem .9rem;
  grid-template: "source nodes" fit-content(75%) "source story" minmax(0, 1fr) / minmax(14rem, 25%) minmax(0, 1fr); }
main > * { min-height: 0; overflow: auto; scrollbar-width: thin; }
#source { grid-area: source; }
#source li { display: grid; grid-template-columns: 1.8em calc(var(--badges) * 1.2em + .5em) minmax(0, 1fr); align-items: baseline; border-radius: .2em; }
#source .number { color: var(--soft); font-size: .8rem; text-align: right; padding-right: .4em; }
#source .next { font-size: .75rem; white-space: nowrap; padding-left: .2em; }
#source code { white-space: pre; overflow: hidden; text-overflow: ellipsis; tab-size: 4; min-height: 1.35em; }
#source .now code { white-space: pre-wrap; overflow: visible; overflow-wrap: anywhere; }
#source .now { background: var(--now-field); box-shadow: inset .25rem 0 var(--now); font-weight: 700; }
#source .raced .number { box-shadow: inset -.2rem 0 var(--race); }

#nodes { grid-area: nodes; container-type: inline-size; display: grid; grid-template-columns: repeat(var(--nodes), minmax(0, 1fr)); gap: .6rem; align-content: start; padding: .15rem; }
.node { display: grid; grid-template-columns: auto minmax(0, 1fr); gap: .25em .5em; font-size: clamp(.9rem, 6.5cqi / var(--nodes), 1.25rem); align-items: baseline; align-content: start;
  padding: .4em .6em; border: .1rem solid var(--line); border-radius: .5rem; }
.node > * { grid-column: 1 / -1; }
.node h2, .node .line { grid-column: auto; justify-self: start; font-size: 1.1em; font-weight: 650; }
.node .waits { min-height: 1.35em; white-space: nowrap; overflow: hidden; text-overflow: ellipsis; }
.node.now { border-color: var(--now); box-shadow: 0 0 0 .12rem var(--now); }
.node.now h2 .badge { background: var(--now); }
.wide .node { grid-template-columns: auto auto minmax(0, 1fr); }
.wide .waits { grid-column: auto; text-align: right; }
.wide .page { display: grid; grid-template-columns: auto 1fr; gap: 0 .8em; align-items: baseline; }
.wide .notes { min-height: 0; }
.wide .page .words { --least: 5em; grid-column: 1 / -1; }
.headings { display: none; }
.time { display: flex; flex-wrap: wrap; gap: .2em; }
.time li { min-width: 1.9em; padding: 0 .25em; border: .08rem solid var(--line); border-radius: .2em; text-align: center; font-size: 1.1em; line-height: 1.25; }
.time .own { border-color: var(--ink); border-bottom-width: .2rem; font-weight: 700; }
.time::before { content: "time"; align-self: center; margin-right: .2em; color: var(--soft); font: .85em system-ui, "DejaVu Sans", sans-serif; }
.notes { display: flex; flex-wrap: wrap; gap: 0 .6em; min-height: 1.35em; font-size: .85em; }
.page b { font-weight: 700; }
.words { --least: 4em; display: flex; flex-wrap: wrap; gap: .2em; }
.word { position: relative; min-width: min(100%, max(var(--least), var(--digits) * var(--narrow) * 1.3ch + 1em)); max-width: 100%; padding: .05em .3em; border: .12rem solid var(--line);
  border-radius: .25em; text-align: center; line-height: 1.15; }
.word .value { display: block; font-size: calc(1.4em * var(--narrow)); font-weight: 650; }
.word .note { display: block; min-height: 1.15em; font-size: .8em; }
.word .name { font-size: .75em; color: var(--soft); }
.stale::after { content: ""; position: absolute; top: 0; right: 0; border: .3em solid; border-color: var(--off) var(--off) transparent transparent; }
[data-copy=written] .word { border-color: var(--now); border-style: double; border-width: .2rem; }
[data-copy=invalid] .word { border-color: var(--off);
  background-image: repeating-linear-gradient(-45deg, transparent 0 .4rem, var(--off-field) .4rem .8rem); }
[data-copy=invalid] .value { color: var(--soft); text-decoration: line-through; }
[data-copy=absent] .word { border-style: dashed; color: var(--soft); }
[data-copy=written] h3 b { color: var(--now); }
[data-copy=invalid] h3 b { color: var(--off); }
.word.touched { outline: .2rem solid var(--now); outline-offset: .05rem; }
.word.raced { outline-color: var(--race); outline-style: dashed; }
/* Panels with grids have less room for all else. */
.dense .node { grid-template-columns: auto auto minmax(0, 1fr); gap: .1em .5em; font-size: clamp(.85rem, 5.8cqi / var(--nodes), 1rem); }
.dense .pages, .dense .chips { font-size: .9em; }
.dense .waits { grid-column: auto; text-align: right; font-size: .9em; }
.dense .pages { display: flex; flex-wrap: wrap; gap: 0 .9em; }
.dense .page { display: flex; flex-wrap: wrap; align-items: baseline; gap: 0 .4em; max-width: 100%; }
.dense .page .notes { min-height: 0; max-width: 100%; }
.dense .word { display: flex; gap: .4em; min-width: 0; align-items: baseline; }
.dense .word .value { font-size: 1em; }
.dense .word .note, .dense .chips { min-height: 0; }
.grids { display: flex; flex-wrap: wrap; gap: 0 1em; align-items: start; }
.grid { font-size: calc(.85em * var(--scale)); min-width: 0; }
.grid h3, .grid .grid-notes { font-size: calc((.5 + .5 / var(--scale)) * 1em); height: 1.5em; line-height: 1.5; overflow: hidden; text-overflow: ellipsis; white-space: nowrap; }
.grid table { border-spacing: 0; table-layout: fixed; width: calc((var(--head) + var(--columns) * var(--cell)) * 1em); }
.grid th { width: calc(var(--cell) * 1em); height: 1.3em; overflow: hidden; color: var(--soft); font-weight: 400; line-height: 1.2; }
.grid th:first-child { width: calc(var(--head) * 1em); }
.grid td { position: relative; height: 1.6em; padding: 0 .1em; border: .06em solid var(--line); overflow: hidden;
  text-overflow: ellipsis; white-space: nowrap; text-align: center; font-weight: 650; line-height: 1.3; }
.grid .cut-left td:nth-of-type(1) { border-left: .16em dotted var(--soft); }
.grid .cut-right td:last-child { border-right: .16em dotted var(--soft); }
.grid .cut-top tr:nth-child(2) td { border-top: .16em dotted var(--soft); }
.grid .cut-bottom tr:last-child td { border-bottom: .16em dotted var(--soft); }
.grid td, .grid th { font-family: ui-monospace, "Cascadia Mono", Menlo, "DejaVu Sans Mono", monospace; }
.grid td[data-copy=written] { border-color: var(--now); border-width: .14em; }
.grid td[data-copy=invalid] { color: var(--soft); text-decoration: line-through;
  background-image: repeating-linear-gradient(-45deg, transparent 0 .3rem, var(--off-field) .3rem .6rem); }
.grid td[data-copy=absent] { border-style: dashed; color: var(--soft); }
.grid td.touched { z-index: 1; outline: .22rem solid var(--now); background-color: var(--now-field); }
.grid td.raced { outline-color: var(--race); outline-style: dashed; }
.grid .stale::after { border-width: .22em; }
.chips { display: flex; flex-wrap: wrap; gap: .15em .6em; align-items: baseline; min-height: 1.45em; }
.chip { padding: 0 .35em; border: .08rem solid var(--line); border-radius: .3em; }
.chip.away { border-color: transparent; padding: 0; }
.chip.full { border-color: var(--ink); font-weight: 650; }

/* Many nodes: a row for each. */
.rows main { grid-template: "source nodes" minmax(0, 3fr) "story nodes" minmax(0, 2fr) / minmax(15rem, 21%) minmax(0, 1fr); }
.rows #nodes { container-type: normal; grid-template-columns: auto auto auto auto fit-content(45%) minmax(8em, 1fr); gap: 0 .6em; padding: 0; }
.rows .node { grid-column: 1 / -1; grid-template-columns: subgrid; font-size: .85rem; align-items: center; padding: .04em .3em; border-width: 0 0 .08rem; border-radius: 0; scroll-margin-top: 4em; }
.rows .node > * { grid-column: auto; }
.rows .node.now { background: var(--now-field); box-shadow: none; }
#arrays { grid-column: 1 / -1; padding-top: .3em; font-size: .95rem; }
#arrays:empty { display: none; }
.rows .headings { display: grid; position: sticky; top: 0; z-index: 1; background: var(--paper); color: var(--soft); }
.rows .headings li { border-color: transparent; }
.rows .time { flex-wrap: nowrap; gap: 0; }
.rows .time li { min-width: 1.6em; padding: 0; font-size: 1em; }
.rows .waits { width: 8em; }
.rows .pages { display: flex; flex-wrap: wrap; gap: .2em .8em; }
.rows .words { gap: .1em; }
.rows .node, .rows .node .badge, .rows .node .time li { line-height: 1.15; }
.rows .chips { min-height: 0; }
.rows .word { flex: none; width: calc(max(var(--digits) * 1ch, var(--label) * .62em) + .6em); min-width: 0; padding: 0; border-width: .1rem; overflow: hidden; text-overflow: ellipsis; }
.rows .headings .name { display: block; overflow: hidden; text-overflow: ellipsis; white-space: nowrap; }
.rows .word .value { font-size: 1em; text-decoration: none; }
.rows .stale::after { border-width: .22em; }
.rows .chips { flex-wrap: nowrap; overflow: hidden; white-space: nowrap; }
.rows .node:not(.headings) h3, .rows .notes, .rows .node:not(.headings) .name, .rows .note, .rows .stored, .rows .time::before, .rows .line .caption { display: none; }

#story { grid-area: story; display: flex; gap: .6rem 1.5rem; overflow-wrap: anywhere; }
.rows #story { flex-direction: column; }
#story h2:not(:empty) { margin-top: .2rem; }
#story h2 { color: var(--soft); font-size: .9rem; font-weight: 650; }
#story ul { display: grid; gap: .15rem; }
#story li { padding-left: .9em; text-indent: -.9em; }
#story pre { margin: .3em 0 0; text-indent: 0; font: inherit; font-size: .9em; white-space: pre-wrap; }
#why { flex: 1; }
#flight { flex: 0 0 auto; }
#flight:has(li) { flex-basis: 40%; }
.rows #why, .rows #flight { flex: none; }
.gives, .fresh { font-weight: 700; }
.races, .race, .deadlock { color: var(--race); font-weight: 700; }
dl { display: grid; grid-template-columns: auto 1fr; gap: .2rem 1rem; }
kbd { padding: 0 .3em; margin-right: .3em; border: .08rem solid var(--line); border-radius: .25em; font-size: .9em; }

#timeline { display: block; width: 100%; font-size: .85rem; border-block: .08rem solid var(--line); cursor: pointer; }
#timeline text { fill: var(--ink); text-anchor: middle; dominant-baseline: central; }
#timeline .margin { fill: var(--paper); }
#timeline .lane { stroke: var(--line); stroke-width: .11em; }
#timeline .known { fill: var(--now-field); }
#timeline line.limit { stroke: var(--now); stroke-width: .2em; }
#timeline .cursor { fill: var(--changed); opacity: .6; }
#timeline .mark { fill: var(--paper); stroke: var(--soft); stroke-width: .1em; }
#timeline .mark.now { stroke: var(--now); stroke-width: .26em; }
#timeline .mark.raced { stroke: var(--race); stroke-width: .18em; }
#timeline .quiet { fill: var(--soft); }
#timeline .later { fill: var(--line); }
#timeline .message { fill: none; stroke: var(--soft); stroke-width: .1em; }
#timeline .flying { stroke: var(--now); stroke-width: .18em; stroke-dasharray: .5em .3em; }
#timeline path.racing { fill: none; stroke: var(--race); stroke-width: .25em; }
#timeline text.racing { fill: var(--race); font-weight: 700; paint-order: stroke; stroke: var(--paper); stroke-width: .35em; }
#timeline text.limit { fill: var(--soft); font-size: .75em; text-anchor: end; }
#timeline text.after { text-anchor: start; }

#controls { display: flex; flex-wrap: wrap; gap: .3rem; align-items: center; }
#controls input { flex: 1 1 6rem; min-width: 4rem; accent-color: var(--now); height: 1.8rem; }
#said:not(:empty) { position: fixed; right: .9rem; bottom: 3.2rem; padding: .3rem .8rem; border-radius: .35rem; background: var(--ink); color: var(--paper); font-weight: 600; }
#asked { width: 18rem; max-width: 100%; margin: .5rem .5rem 0 0; padding: .2rem .5rem; border: .08rem solid var(--line); border-radius: .35rem; background: var(--field);
  color: inherit; font: inherit; }
button { padding: .2rem .42rem; border: .08rem solid var(--line); border-radius: .35rem; background: var(--field); color: inherit;
  font: inherit; font-size: .82rem; cursor: pointer; }
dialog button { margin-top: 1rem; }
dialog dl + dl { margin-top: 1rem; }
dialog { margin: auto; padding: 1.2rem 1.6rem; border: .1rem solid var(--line); border-radius: .6rem; background: var(--paper); color: inherit; }

@media screen and (max-height: 48em) {
  .node { font-size: clamp(.9rem, 6.5cqi / var(--nodes), 1.05rem); }
}
@media screen and (max-width: 60em), screen and (max-height: 32em) {
  html { scroll-padding: 11rem 0 9rem; }
  body { display: block; height: auto; }
  header { position: sticky; top: 0; z-index: 2; background: var(--paper); }
  .dense #nodes { grid-template-columns: repeat(auto-fit, minmax(min(100%, 18rem), 1fr)); }
  .rows main, main { display: flex; flex-direction: column; }
  #controls { position: sticky; bottom: 0; z-index: 2; padding: .3rem 0; background: var(--paper); }
}
@media print {
  @page { size: landscape; margin: 10mm; }
  * { print-color-adjust: exact; }
  html { font-size: 10.5pt; }
  html:has(.rows) { font-size: 8.5pt; }
  body { display: block; height: auto; padding: 0; }
  main, .rows main { grid-template-rows: auto auto; }
  main > * { overflow: visible; }
  #controls { display: none; }
}
</style>
</head>
<body>
<header>
  <p class="caption" id="place"></p>
  <h1 id="headline" aria-live="polite"></h1>
  <p id="because"></p>
</header>
<main>
  <ol id="source" aria-label="Program" tabindex="0"></ol>
  <div id="nodes" role="region" aria-label="Nodes"><div class="node headings" id="headings" aria-hidden="true"></div>
    <div id="arrays"></div></div>
  <div id="story" tabindex="0" role="region" aria-label="Reasons and messages">
    <section id="why"></section>
    <section id="flight"></section>
  </div>
</main>
<svg id="timeline" role="img" aria-label="The turns so far, a lane for each node"></svg>
<nav id="controls" aria-label="Turns">
  <button data-key="Home" title="to the start (Home)">First</button>
  <button data-key="Shift+ArrowLeft" title="ten turns back (Shift &larr;)">&minus;10</button>
  <button data-key="ArrowLeft" title="one turn back (&larr; or Page Up)">Back</button>
  <button data-key="ArrowRight" title="one turn on (&rarr; or Page Down)">Next</button>
  <button data-key="Shift+ArrowRight" title="ten turns on (Shift &rarr;)">+10</button>
  <button data-key="End" title="to the last turn (End)">Last</button>
  <button data-key="a" title="to the next act (a)">Act</button>
  <button data-key="R" title="to the act before that races (R)">&lsaquo; Race</button>
  <button data-key="r" title="to the next act that races (r)">Race &rsaquo;</button>
  <button data-key="[" title="to the act before on the same word or lock ([)">&lsaquo; Word</button>
  <button data-key="]" title="to the next act on the same word or lock (])">Word &rsaquo;</button>
  <button data-key="{" title="to the act before of the same node ({)">&lsaquo; Node</button>
  <button data-key="}" title="to the next act of the same node (})">Node &rsaquo;</button>
  <button data-key="g" title="to a turn, an act or a line (g)">Go to</button>
  <button data-key="/" title="to the next headline with a text (/)">Find</button>
  <button data-key="n" title="to the next headline with the same text (n)">Again</button>
  <button data-key=" " title="play and stop (Space)" id="play">Play</button>
  <input id="slider" type="range" min="0" aria-label="turn">
  <button data-key="?" title="keys and signs (?)">Help</button>
  <output id="said"></output>
</nav>
<dialog id="ask" aria-labelledby="asking">
  <form method="dialog"><label id="asking" for="asked"></label><br><input id="asked" autocomplete="off" spellcheck="false"><button>Go</button></form>
</dialog>
<dialog id="help" aria-label="Keys and signs">
  <dl>
    <dt><kbd>&rarr;</kbd> <kbd>&larr;</kbd></dt><dd>one turn on, one back (also Page Down, Page Up)</dd>
    <dt><kbd>Shift &rarr;</kbd> <kbd>Shift &larr;</kbd></dt><dd>ten turns</dd>
    <dt><kbd>Home</kbd> <kbd>End</kbd></dt><dd>to the start, to the last turn</dd>
    <dt><kbd>a</kbd></dt><dd>to the next act: turns that only take or send are left out</dd>
    <dt><kbd>r</kbd> <kbd>R</kbd></dt><dd>to the next act that races, to the one before</dd>
    <dt><kbd>[</kbd> <kbd>]</kbd></dt><dd>to the act before and after on the same word or lock</dd>
    <dt><kbd>{</kbd> <kbd>}</kbd></dt><dd>to the act before and after of the same node</dd>
    <dt><kbd>g</kbd></dt><dd>asks where to go: 13 is turn 13, a8 is act 8, l9 is the next act of line 9</dd>
    <dt><kbd>/</kbd> <kbd>n</kbd></dt><dd>asks for a text, and goes to the next headline that has it; to the next again, from the end to the start</dd>
    <dt><kbd>Space</kbd></dt><dd>play and stop</dd>
  </dl>
  <dl>
    <dt class="off">now 2</dt><dd>a newer value was written, and this copy does not have it</dd>
    <dt class="off">lacks 0.2</dt><dd>it was told of interval 2 of node 0 and has not fetched its changes</dd>
    <dt class="off">not told of 0.3</dt><dd>no notice of interval 3 of node 0 has come</dd>
    <dt>twin 0</dt><dd>the value before the first write in this interval</dd>
    <dt>grid[0] <span class="caption">2 &times; 8 &times; 8</span></dt><dd>an array and its sizes; a dotted edge is where rows or columns are left out</dd>
    <dt>now 2 at [1][4]</dt><dd>the word in that row and column, which has a mark in its corner</dd>
    <dt><span class="chip">0.2 p0</span></dt><dd>a notice: interval 2 of node 0 wrote page 0; bold where its changes are here</dd>
    <dt>next 1, last asked: 2</dt><dd>who gets the lock at its release; whom its manager forwards to</dd>
    <dt>r1=0, w1=2</dt><dd>word 1 is read, written; a ring is a turn without an act, a dot a step of the node's own</dd>
    <dt>blue band</dt><dd>what the node of this turn knows of each node</dd>
  </dl>
  <form method="dialog"><button>Close</button></form>
</dialog>
<script>
"use strict";

// ---- Arrays as grids ----
// A label of several words is an array. A slice of it is a table of its last two dimensions. Where the window has no room for a whole slice, it
// shows the rows and columns around the word of it that was touched last.

/** The array of each word that is under one, and the slices that are in use, with the moments at which their words are touched. */
function arraysOf({ labels, turns, written, states }) {
  const arrays = new Map();
  for (const { of, from, to, name, sizes = [] } of labels) {
    if (of !== "words") continue;
    const rest = sizes.reduce((product, size) => product * size, 1);
    const array = { from, name, sizes: [(to - from + 1) / rest, ...sizes], digits: 2 };
    for (let word = from; word <= to; word++) arrays.set(word, array);
  }
  const slices = new Map();
  const touch = (word, value, moment) => {
    const slice = sliceOf(arrays.get(word), word);
    if (!slices.has(slice.first)) slices.set(slice.first, slice);
    slices.get(slice.first).touches.push({ word, moment });
    holds(word, value);
  };
  const holds = (word, value) => {
    const array = arrays.get(word);
    if (array) array.digits = Math.min(8, Math.max(array.digits, value.length));
  };
  for (const { word, value } of written) if (arrays.has(word)) touch(word, value, 0);
  turns.forEach(({ act }, k) => { if (arrays.has(act?.word)) touch(act.word, act.value, k + 1); });
  for (const { words } of states.flatMap(({ pages }) => pages)) Object.entries(words).forEach(([word, value]) => holds(+word, value));
  return { arrays, slices: [...slices.values()].sort((one, other) => one.first - other.first) };
}

function sliceOf(array, word) {
  const { from, name, sizes } = array;
  const [rows, columns] = sizes.length > 1 ? sizes.slice(-2) : [1, sizes[0]];
  const place = Math.floor((word - from) / (rows * columns));
  return { array, rows, columns, first: from + place * rows * columns, title: name + bracketed(indicesOf(place, sizes.slice(0, -2))), touches: [] };
}

/** The indices of a place in an array of these sizes, by rows. */
function indicesOf(place, sizes) {
  const indices = [];
  for (const size of [...sizes].reverse()) {
    indices.unshift(place % size);
    place = Math.floor(place / size);
  }
  return indices;
}
function bracketed(indices) { return indices.map(index => `[${index}]`).join(""); }

/** The word of a slice that was touched last; the first one, before any is touched. */
function focusOf({ touches, first }) { return touches.findLast(({ moment }) => moment <= at) ?? { word: first, moment: -1 }; }

/** The first of so many indices around one. It moves by half of them, so it seldom moves. */
function around(index, count, size) {
  const step = Math.max(1, Math.floor(count / 2));
  const start = Math.floor(index / step) * step - Math.floor((count - step) / 2);
  return Math.max(0, Math.min(size - count, start));
}

// The height of a row of a grid, and of all that stands around its rows, in signs of its own size.
const rowHeight = 1.6, frameHeight = 4.8;

function cellWidth({ array, columns }) { return .62 * Math.max(array.digits, String(columns - 1).length) + .5; }
function headWidth({ rows }) { return .62 * (rows > 1 ? String(rows - 1).length : 0) + .5; }
function gridWidth(slice) { return headWidth(slice) + slice.columns * cellWidth(slice) + 1.5; }

/** The grids that there is room for; larger ones, and in a great window smaller ones, where all slices are whole by that. */
function gridsFor({ em, width, height, least }) {
  const isWhole = ({ slice, rows, columns }) => rows === slice.rows && columns === slice.columns;
  for (const scale of em > 18 ? [1.7, 1.3, 1, .8] : [1.7, 1.3]) {
    const grids = partsFor({ width: width / scale, height: height / scale, least });
    if (grids.length === run.slices.length && grids.every(isWhole)) return grids.map(grid => ({ ...grid, scale }));
  }
  return partsFor({ width, height, least }).map(grid => ({ ...grid, scale: 1 }));
}

/** The slices that there is room for, those touched last before all others, and the part of each that is shown. */
function partsFor({ width, height, least }) {
  const latest = [...run.slices].sort((one, other) => focusOf(other).moment - focusOf(one).moment || one.first - other.first);
  for (let count = Math.min(latest.length, 24); count > 0; count--) {
    const slices = latest.slice(0, count).sort((one, other) => one.first - other.first);
    const abreast = Math.max(1, Math.min(count, Math.floor(width / Math.max(...slices.map(gridWidth)))));
    const rows = rowsFor(slices, abreast, height);
    const most = Math.max(...slices.map(slice => slice.rows));
    if (rows >= Math.min(3, most) || (count === 1 && least)) return slices.map(slice => partOf(slice, Math.max(1, rows), width));
  }
  return [];
}

/** How many rows at most each of these slices may show, so many of them abreast. */
function rowsFor(slices, abreast, height) {
  const lines = [];
  for (let k = 0; k < slices.length; k += abreast) lines.push(Math.max(...slices.slice(k, k + abreast).map(({ rows }) => rows)));
  const heightOf = limit => lines.reduce((sum, rows) => sum + frameHeight + Math.min(rows, limit) * rowHeight, 0);
  let limit = Math.min(Math.max(...lines), Math.ceil(Math.max(0, height) / rowHeight));
  while (limit > 0 && heightOf(limit) > height) limit--;
  return limit;
}

function partOf(slice, rowLimit, width) {
  const rows = Math.min(slice.rows, rowLimit);
  const columns = Math.min(slice.columns, Math.max(1, Math.floor((width - headWidth(slice) - .5) / cellWidth(slice))));
  const place = focusOf(slice).word - slice.first;
  return { slice, rows, columns, top: around(Math.floor(place / slice.columns), rows, slice.rows), left: around(place % slice.columns, columns, slice.columns) };
}

function counting(from, count) { return Array.from({ length: count }, (_, k) => from + k); }
function rowOf({ slice, columns, left }, row) { return counting(slice.first + row * slice.columns + left, columns); }
function wordsOfGrid(grid) { return counting(grid.top, grid.rows).flatMap(row => rowOf(grid, row)); }

/** A part of a slice in a node's copy. */
function gridTable(view, grid) {
  const { slice, rows, columns, top, left, scale } = grid;
  const words = new Map(wordsOfGrid(grid).map(word => [word, wordIn(view, word)]));
  const index = (number, shown) => make("th", {}, shown ? number : "");
  const heading = make("tr", {}, make("th", {}), ...counting(left, columns).map(column => index(column, true)));
  const lines = counting(top, rows).map(row => make("tr", {}, index(row, slice.array.sizes.length > 1), ...rowOf(grid, row).map(word => gridCell(word, words.get(word)))));
  const cut = classes({ "cut-left": left > 0, "cut-right": left + columns < slice.columns, "cut-top": top > 0, "cut-bottom": top + rows < slice.rows });
  return make("div", { class: "grid", style: `--cell: ${cellWidth(slice)}; --head: ${headWidth(slice)}; --columns: ${columns}; --scale: ${scale}` },
    make("h3", {}, make("b", {}, slice.title), " ", caption(slice.array.sizes.join(" \u00d7 "))),
    make("table", { class: cut }, heading, ...lines),
    make("p", { class: "grid-notes" }, ...gridNotes(slice, words)));
}

function gridCell(word, { text, copy, holds, title }) {
  return make("td", { class: classes(holds), "data-copy": copy, "data-word": word, title: `${labelled("word", word)}: ${text}; ${title}` }, text);
}

/** Of the words shown: what this turn does, which have another value now, and twins. */
function gridNotes({ first, array }, words) {
  const at = word => bracketed(indicesOf(word - first, array.sizes.slice(-2)));
  const [place, touched] = [...words].find(([, { done }]) => done) ?? [];
  const old = [...words].filter(([word, { newer }]) => newer && word !== place).map(([word, { newer }]) => `${newer.value} at ${at(word)}`);
  const twins = [...words].filter(([, { twinValue }]) => twinValue !== null).map(([word, { twinValue }]) => `${twinValue} at ${at(word)}`);
  return [
    touched ? `${at(place)} ${touched.done} ` : null,
    touched?.newer ? marked(`now ${touched.newer.value}`, { off: true }) : null,
    old.length ? marked(`${touched?.newer ? "; " : ""}now ${listed(old)} `, { off: true }) : null,
    twins.length ? caption(` twin ${listed(twins)}`) : null,
  ];
}

/** In a table of many nodes that shows these words: the words of arrays that were touched last, as many as there is room for beside them. */
function touchedLately(shown) {
  const em = parseFloat(getComputedStyle(regions.headings).fontSize);
  const widthOf = word => .62 * Math.max(run.digits, Math.min(9, nameOf(word).length), String(word).length) + 1.4;
  const pages = regions.headings.querySelector(".pages").getBoundingClientRect();
  const { right, width } = regions.nodes.getBoundingClientRect();
  let room = Math.min(width * .45, right - pages.left - 9 * em) / em - shown.reduce((sum, word) => sum + widthOf(word), 0);
  const words = new Set();
  for (let moment = at; moment > 0; moment--) {
    const { act } = run.turns[moment - 1];
    if (!run.arrays.has(act?.word) || words.has(act.word)) continue;
    room -= widthOf(act.word);
    if (room < 0 && words.size) break;
    words.add(act.word);
  }
  return words;
}

/** Below a table of many nodes: the arrays of one node. */
function arraysOfNode(view, grids) {
  const pages = [...new Set(grids.flatMap(wordsOfGrid).map(pageNumber))];
  return [
    make("div", { class: "pages" }, badge(view.node), ...pages.map(page => pageCopy({ ...view, grids }, pageOf(view.state, page), []))),
    make("div", { class: "grids" }, ...grids.map(grid => gridTable(view, grid)))];
}

/** How high the nodes are. */
function nodesHeight() {
  const parts = [...regions.nodes.children].filter(part => part.getClientRects().length);
  return Math.max(...parts.map(part => part.getBoundingClientRect().bottom)) - regions.nodes.getBoundingClientRect().top + regions.nodes.scrollTop;
}

function isInOneColumn() { return getComputedStyle(regions.nodes.parentElement).display === "flex"; }

/** What is left for grids, in their own signs: below a table of many nodes, or in each panel; in one column, half of the window. */
function roomForGrids() {
  const { nodes } = regions;
  const main = nodes.parentElement;
  const isTable = run.nodes > 4;
  const place = isTable ? nodes : nodes.querySelector("section .pages");
  const em = .85 * parseFloat(getComputedStyle(isTable ? regions.arrays : place.parentElement).fontSize);
  const most = isInOneColumn() ? nodesHeight() + innerHeight / 2 : isTable ? nodes.clientHeight : main.clientHeight * .75;
  return { em, most, width: place.clientWidth / em, height: (most - nodesHeight()) / em, least: !isTable };
}
</script>
<script type="application/json" id="run">
"##;
