// The script of the document.

/// The document after its lines: the rest of the markup, and the script.
pub const CLOSING: &[u8] = br##"</script>
<script>
"use strict";

// Data flows one way. `readRun` reads the lines, once, and makes a moment of each turn: the states of all nodes just after it. `at` is the
// moment that is shown. `draw` makes each region of the page anew from that moment: header, source, nodes, story, timeline. A key or a button
// calls `go`, which sets `at` and draws. The functions of arrays stand in the frame, before the data. Words of the data are shown as they stand;
// what the page goes by are members. Only text nodes are made from data, never markup.

// ---- The run, as the lines of the data say it ----
// A moment is a state of all nodes: moment 0 is the start, moment k stands just after the k-th turn of the data.

const run = readRun(document.getElementById("run").textContent);
const lastMoment = run.moments.length - 1;
let at = 0;

function readRun(text) {
  const run = { turns: [], races: [], why: new Map(), explain: [], ends: [], deadlocks: [] };
  for (const line of text.trim().split("\n")) {
    const part = JSON.parse(line);
    if ("turn" in part) run.turns.push(readTurn(part));
    else if ("states" in part) Object.assign(run, readStart(part));
    else if ("race" in part) run.races.push(part);
    else if ("why" in part) run.why.set(part.why, part);
    else Object.assign(run, part);
  }
  run.source = [...run.text.replace(/\n$/, "").split("\n"), "# end"];
  run.momentOfAct = new Map(run.turns.flatMap(({ act }, k) => act ? [[act.position, k + 1]] : []));
  run.pairs = run.races.flatMap(({ race, pairs }) => pairs.map(pair => ({ race, pair: pair.map(act => run.momentOfAct.get(act)) }))).concat(racesBeyond(run));
  Object.assign(run, momentsOf(run), usesOf(run), arraysOf(run));
  run.goesOn = run.turns.length > 0 && goesOn(run);
  return Object.assign(run, { isPart: run.turns[0]?.turn > 0 || run.goesOn });
}

/** The members that say in parts what others say in words, each put into what it is of. A value has 64 bits, so it stays a text. */
function readTurn({ by, done, took, sent, stands, ...turn }) {
  const { act, take, sends, state } = turn;
  return { ...turn, by, act: act && { ...act, word: null, ...done }, take: take && { ...take, ...took },
    sends: withParts(sends, sent), state: { ...state, wait: stands } };
}
function readStart({ flying, stand, ...start }) {
  return { ...start, flight: withParts(start.flight, flying), states: start.states.map((state, node) => ({ ...state, wait: stand[node] })) };
}
function withParts(messages, parts) { return messages.map((message, k) => ({ ...message, ...parts[k] })); }

/** Whether some node comes to another end, or to another line, than it has at the last turn that is shown. */
function goesOn({ ends, moments }) {
  const { states } = moments.at(-1);
  return ends.some(({ end, line }, node) => end !== endOf(states[node]) || line !== states[node].at);
}
function endOf({ wait }) { return ["ended", "trapped"].includes(wait.kind) ? wait.kind : "unfinished"; }

/** Races with acts that are not shown, by the reasons: moment 0 stands for those before the part, none for those behind it. */
function racesBeyond({ why, races, momentOfAct, turns }) {
  const groups = new Map(races.map(({ race, of }) => [JSON.stringify(of), race]));
  return [...why].flatMap(([position, { races: rivals }]) => rivals.flatMap((rival, node) => {
    if (!rival || momentOfAct.has(rival.act)) return [];
    const moment = momentOfAct.get(position);
    const isBefore = rival.act < position;
    const beyond = { node, act: { word: turns[moment - 1].act.word, line: rival.of[isBefore ? 0 : 1].line } };
    return [{ race: groups.get(JSON.stringify(rival.of)) ?? null, pair: isBefore ? [0, moment] : [moment, Infinity], beyond }];
  }));
}

function momentsOf(run) {
  const moments = [{ states: run.states, flight: run.flight.map(message => ({ ...message, sent: 0, takes: [] })) }];
  const messages = [...moments[0].flight];
  for (const turn of run.turns) {
    const { node, by, take, sends, state } = turn;
    const before = moments.at(-1);
    const taken = take && messages.find(({ from, to, number }) => from === take.from && to === take.to && number === take.number);
    taken?.takes.push(moments.length);
    const sent = sends.map(message => ({ ...message, sent: moments.length, takes: [] }));
    messages.push(...sent);
    const flight = before.flight.filter(message => message !== taken || by.kind === "repeat").concat(sent);
    moments.push({ turn, flight, states: before.states.with(node, follow(before.states[node], state)) });
  }
  return { moments, messages };
}

/** A line names the intervals that are new or changed; those whose times a collection covers are gone. */
function follow(before, state) {
  const stored = new Map([...before.intervals, ...state.intervals].map(entry => [entry.interval, entry]));
  const isKept = ({ stamp }) => stamp.some((entry, node) => entry > state.collected[node]);
  return { ...state, intervals: [...stored.values()].filter(isKept) };
}

/** The writes to each word, in the order of the run (`written` are those before the part that is shown), and the words in use. */
function usesOf(run) {
  const writes = new Map(run.written.map(write => [write.word, [{ moment: 0, ...write }]]));
  const inUse = new Set(writes.keys());
  run.turns.forEach(({ node, act }, k) => {
    if (act && act.word !== null) inUse.add(act.word);
    if (act?.kind === "write") writes.set(act.word, [...writes.get(act.word) ?? [], { moment: k + 1, node, ...act }]);
  });
  return { writes, inUse: [...inUse].sort((one, other) => one - other) };
}

const copiesByPage = new WeakMap();

function pageOf(state, page) {
  if (!copiesByPage.has(state)) copiesByPage.set(state, new Map(state.pages.map(copy => [copy.page, copy])));
  return copiesByPage.get(state).get(page) ?? { page, copy: "valid", words: {}, twin: null, lacks: [], keeper: 0, base: null };
}
function copyOf(state, word) { return pageOf(state, pageNumber(word)); }
function valueOf(state, word) { return copyOf(state, word).words[word] ?? "0"; }

/** The last write to a word, where there is a copy and has another value. */
function newerWrite(state, word) {
  const write = run.writes.get(word)?.findLast(({ moment }) => moment <= at);
  return write && copyOf(state, word).copy !== "absent" && write.value !== valueOf(state, word) ? write : null;
}
function isToldOf(state, write) { return state.time[write.node] >= write.interval; }

/** The moment up to which a node knows of another by its time. */
function momentKnown({ time }, other) { return Math.max(0, run.moments.findIndex(({ states }) => states[other].time[other] >= time[other])); }
function racesAt(moment) { return moment ? run.pairs.filter(({ pair }) => pair.includes(moment)) : []; }
function turnsOf({ pair, beyond }) { return [...pair.flatMap(moment => run.moments[moment]?.turn ?? []), ...beyond ? [beyond] : []]; }
function groupsOf({ races }) { return races.filter(({ race }) => race !== null); }
function raceName({ race }) { return race ? `race ${race}` : "race"; }

// ---- In words ----

const traps = ["", "division by zero", "word out of range", "lock out of range", "lock held already", "lock not held"];

/** The indices of a word or of a lock under a label, by rows. */
function placeOf({ of, from, sizes = [] }, number) {
  return ["words", "locks"].includes(of) ? bracketed(indicesOf(number - from, [Infinity, ...sizes])) : "";
}
function labelOf(kind, number) {
  const label = run.labels.find(({ of, from, to }) => [kind, `${kind}s`].includes(of) && from <= number && number <= to);
  return label ? `${label.name}${placeOf(label, number)}` : "";
}
function numbered(kind, number) { const label = labelOf(kind, number); return label ? `${number} (${label})` : String(number); }
function labelled(kind, number) { return `${kind} ${numbered(kind, number)}`; }
/** A word's label alone, and the room that it takes above a column of values: at most that of nine signs. */
function nameOf(word) { return labelOf("word", word); }
function labelWidth(word) { return `--label: ${Math.min(9, Math.max(nameOf(word).length, String(word).length))}`; }
function counted(count, thing) { return count === 1 ? `1 ${thing}` : `${count} ${thing}s`; }

/** At most five, the rest as a number. */
function listed(items) {
  if (items.length > 5) return `${items.slice(0, 4).join(", ")} and ${items.length - 4} more`;
  return items.length < 2 ? items.join() : `${items.slice(0, -1).join(", ")} and ${items.at(-1)}`;
}

const deedWords = {
  read: ({ word, value }) => `reads ${labelled("word", word)}: ${value}`,
  write: ({ word, value }) => `writes ${value} to ${labelled("word", word)}`,
  acquire: ({ lock }) => `acquires ${labelled("lock", lock)}`,
  release: ({ lock }) => `releases ${labelled("lock", lock)}`,
  arrive: (act, { episode }) => `arrives at barrier ${episode}`,
  depart: () => "departs",
  print: ({ value }) => `prints ${value}`,
  trap: ({ cause }) => `traps: ${traps[cause]}`,
  end: () => "ends",
  quiet: ({ line }) => `goes on: ${run.source[line - 1].replace(/#.*/, "").trim()}`,
};

const askedWords = {
  "lock-request": lock => labelled("lock", lock),
  "changes-request": page => `changes of page ${page}`,
  "page-request": page => `the whole of page ${page}`,
};

const messageWords = {
  "lock-forward": lock => `a forwarded request for ${labelled("lock", lock)}`,
  "lock-grant": lock => `the grant of ${labelled("lock", lock)}`,
  "arrive": episode => `the arrival at barrier ${episode}`,
  "depart": episode => `the departure of barrier ${episode}`,
  "clean": episode => `the clean of barrier ${episode}`,
  "discard": episode => `the discard of barrier ${episode}`,
  "changes-reply": page => `changes of page ${page}`,
  "page-reply": page => `the whole of page ${page}`,
};

/** A message by its kind, and the number of its lock, barrier or page. */
function inWords({ kind, of }) { return kind in askedWords ? `a request for ${askedIn({ kind, of })}` : messageWords[kind](of); }
function askedIn({ kind, of }) { return askedWords[kind](of); }

/** What the run came to, as the headline of its last turn: a deadlock, or else where nodes trapped. */
function ending() {
  if (run.deadlocks.length) return `Deadlock: ${run.deadlocks.map(circleInWords).join("; ")}`;
  const { states } = run.moments[lastMoment];
  return states.flatMap(({ wait, at }, node) => wait.kind === "trapped" ? [`Node ${node} trapped at line ${at}: ${traps[wait.of]}`] : []).join("; ");
}

function circleInWords(circle) { return [...circle, circle[0]].map(node => `node ${node}`).join(" waits for "); }

/** The headline of the turn that is shown: at the last turn of the run what it came to, where that is more than its own. */
function shownHeadline() {
  const own = headline(run.moments[at]);
  const end = at > 0 && at === lastMoment && !run.goesOn && run.moments[at].turn.act?.kind !== "trap" ? ending() : "";
  return end ? [end, `${own}. `] : [own, ""];
}

function headline({ turn, states }) {
  if (!turn) return !run.turns.length ? "No turn is shown" : run.turns[0].turn ? `Before turn ${run.turns[0].turn}` : "Before the first turn";
  const { node, act, take, again, sends } = turn;
  const does = act && deedWords[act.kind](act, states[node]);
  if (take) return `Node ${node} takes ${inWords(take)} from node ${take.from}${again ? ", again" : ""}${does ? `, and ${does}` : ""}`;
  if (does) return `Node ${node} ${does}`;
  const and = sends[0].kind === sends.at(-1).kind ? "" : " and changes";
  return `Node ${node} asks ${sends.length > 1 ? "nodes" : "node"} ${listed(sends.map(({ to }) => to))} for ${askedIn(sends[0])}${and}`;
}

/** The rule of the protocol that the turn is a case of; for a read of an old value, why it is old. */
function because({ turn, states }, before) {
  if (!turn && !run.turns.length) return "Nodes and messages are as the turns before left them. Press ? for keys and signs.";
  if (!turn) return `Press \u2192 to go on, ? for keys and signs. ${run.turns[0].turn
    ? "A part of the run: nodes, messages and old values as the turns before it left them."
    : "At the start all copies are valid and zero, and a lock's token is with its manager."}`;
  const state = states[turn.node];
  const rule = turn.again ? () => "It was taken before: nothing happens."
    : turn.take ? takeRules[turn.take.kind] : turn.act ? actRules[turn.act.kind] : whyItAsks;
  const newer = turn.act?.kind === "read" && newerWrite(state, turn.act.word);
  const untold = newer && !isToldOf(state, newer) ? ` in ${newer.node}.${newer.interval} (act ${newer.position}), and no notice of that has come` : "";
  return `${rule?.(turn, before, state) ?? ""}${newer ? ` Node ${newer.node} wrote ${newer.value}${untold}.` : ""}`;
}

const actRules = {
  read: ({ act }, before) => {
    const { page, copy } = copyOf(before, act.word);
    return copy === "invalid" ? "The changes that its copy lacked are stored here: they are applied." : `It reads its own copy of page ${page} (${copy}).`;
  },
  write: ({ act }, before) => {
    const { page, copy } = copyOf(before, act.word);
    return `${copy === "written" ? "" : `The first write to page ${page} in this interval: a twin is kept. `}Nobody is told.`;
  },
  acquire: () => "The token is here and free: no message is needed.",
  release: ({ sends }) => sends.length ? `Node ${sends[0].to} waits for it: the grant goes with what this node knows now.`
    : "Nobody is told. Who acquires the lock later learns of it then.",
  arrive: () => "It tells node 0, the manager, of the intervals that it closed since its last departure.",
};

function whyItAsks({ sends }, before) {
  const { kind, of, to } = sends[0];
  const { copy, lacks } = pageOf(before, of);
  if (kind === "lock-request") return `The token is elsewhere. Node ${to} manages the lock.`;
  return copy === "absent" ? `It has no copy of page ${of}, and node ${to} keeps one.`
    : `Its copy of page ${of} is invalid: it was told of ${listed(lacks)}, and has not fetched the changes.`;
}

const takeRules = {
  "lock-request": ({ sends }) => `It manages the lock, and forwards this to the node that asked last, node ${sends[0].to}.`,
  "lock-forward": ({ sends }) => sends.length
    ? "The token is here and free. The grant tells what this node knew at its last release of the lock."
    : "The lock is held or awaited here: who asks comes next.",
  "lock-grant": whatItLearns,
  "arrive": ({ sends }) => sends.length ? "All have come: each is sent the joined time and the intervals that it lacks." : "Others have not come yet.",
  "depart": whatItLearns,
  "clean": ({ sends }) => sends.length ? "All are clean, so all may discard." : "Others are not clean yet.",
  "discard": () => "Intervals, notices and changes up to the barrier are dropped, and copies that are not valid.",
  "changes-request": () => "It sends the words in which its page differed from the twin.",
  "changes-reply": whatIsApplied,
  "page-request": () => "It keeps a base copy of the page.",
  "page-reply": whatIsApplied,
};

function whatItLearns(turn, before, state) {
  const known = new Set(before.intervals.map(({ interval }) => interval));
  const news = state.intervals.map(({ interval }) => interval).filter(interval => !known.has(interval));
  const isHit = ({ page, copy }) => copy === "invalid" && pageOf(before, page).copy !== "invalid";
  const invalid = state.pages.filter(isHit).map(({ page }) => page);
  const collects = ["upkeep", "discard"].includes(state.wait.kind) ? " A collection: who keeps a page brings it up to date, and says that it is clean." : "";
  return `It learns ${news.length ? `of ${listed(news)}` : "nothing new"}${invalid.length ? `: page ${listed(invalid)} becomes invalid` : ""}.${collects}`;
}

function whatIsApplied({ take }, before, state) {
  if (state.needs.some(({ base, changes }) => base === "due" || changes.length)) return "More is still to come.";
  const { lacks } = pageOf(before, take.of);
  return `Nothing more is missing${lacks.length ? `: the changes of ${listed(lacks)} are applied${lacks.length > 1 ? ", in this order" : ""}` : ""}.`;
}

function waitsInWords({ wait: { kind, of } }) {
  const what = { grant: "lock", depart: "barrier", page: "page", upkeep: "upkeep", discard: "discard" }[kind];
  return what ? `waits: ${what} ${of}` : kind === "trapped" ? `trapped: ${traps[of]}` : kind === "no" ? "" : kind;
}

// ---- Drawing: each function draws one region anew ----

const regions = Object.fromEntries([...document.querySelectorAll("[id]")].map(element => [element.id, element]));
const ofPictures = ["g", "line", "path", "rect", "circle", "text"];

function make(tag, attributes, ...children) {
  const space = ofPictures.includes(tag) ? "http://www.w3.org/2000/svg" : "http://www.w3.org/1999/xhtml";
  const element = document.createElementNS(space, tag);
  for (const [name, value] of Object.entries(attributes)) if (value !== null) element.setAttribute(name, value);
  element.append(...children.filter(child => child !== null && child !== ""));
  return element;
}

/** The names of what holds: classes({ changed: true, own: false }) is "changed". */
function classes(holds) { return Object.keys(holds).filter(name => holds[name]).join(" ") || null; }

function marked(text, holds) { return make("span", { class: classes(holds) }, text); }
function badge(text) { return marked(text, { badge: true }); }
function caption(text) { return marked(text, { caption: true }); }
function differs(one, other) { return JSON.stringify(one) !== JSON.stringify(other); }

function draw() {
  const { turn, states, flight } = run.moments[at];
  const before = run.moments[Math.max(0, at - 1)].states;
  const scale = scaleOfTimeline();
  drawHeader(turn, before);
  drawSource(turn, states);
  drawStory(turn, flight);
  drawTimeline(turn, states, flight, scale);
  drawNodes(turn, states, before, scale); // last, in the room that all else has left
  reveal(regions.source.querySelector(".now") ?? regions.source.querySelector(".badge"), regions.source);
  if (turn) reveal(document.getElementById(`node-${turn.node}`), regions.nodes);
  for (const word of regions.nodes.querySelectorAll(".node.now .touched, #arrays .touched")) revealWord(word);
  regions.slider.value = at;
  regions.slider.setAttribute("aria-valuetext", regions.headline.textContent);
}

function drawHeader(turn, before) {
  const last = run.turns.at(-1)?.turn;
  const whole = last === undefined ? "no turn shown" : `${run.isPart ? "part: " : ""}turns ${run.turns[0].turn} to ${last}`;
  const place = turn ? `turn ${turn.turn} ${run.isPart ? `(part: ${run.turns[0].turn} to ${last})` : `of ${last}`}` : whole;
  const act = turn?.act ? [`act ${turn.act.position}`, `line ${turn.act.line}`] : [];
  const parts = [run.program, counted(run.nodes, "node"), ...counts(), place, ...act];
  regions.place.replaceChildren(...parts.flatMap((part, k) => k ? [" \u00b7 ", part] : [part]));
  const marks = [...new Set(racesAt(at).map(raceName))].map(name => marked(name, { "race-mark": true }));
  const [first, then] = shownHeadline();
  regions.headline.replaceChildren(first, ...marks);
  regions.because.textContent = then + because(run.moments[at], before[turn?.node]);
}

/** How many groups of races, traps and deadlocks the run has, each a link to the turn of the first, where that is shown. */
function counts() {
  const isRaced = (_, moment) => run.pairs.some(({ pair }) => pair[1] === moment || pair[1] === Infinity && pair[0] === moment);
  return [
    counted(groupsOf(run).length, "group of races", "groups of races", run.moments.findIndex(isRaced)),
    counted(run.ends.filter(({ end }) => end === "trapped").length, "trap", "traps", run.moments.findIndex(({ turn }) => turn?.act?.kind === "trap")),
    counted(run.deadlocks.length, "deadlock", "deadlocks", run.goesOn ? 0 : lastMoment),
  ].filter(part => part);

  function counted(count, one, many, moment) {
    const text = `${count} ${count === 1 ? one : many}`;
    return count === 0 ? null : moment > 0 ? make("a", { href: `#turn=${run.moments[moment].turn.turn}` }, text) : text;
  }
}

function drawSource(turn, states) {
  const raced = run.pairs.filter(({ pair }) => pair[1] <= at).flatMap(turnsOf).map(({ act }) => act.line);
  regions.source.replaceChildren(...run.source.map((text, k) => {
    const next = states.flatMap((state, node) => state.at === k + 1 ? [node] : []);
    const comment = text.indexOf("#") < 0 ? text.length : text.indexOf("#");
    return make("li", { class: classes({ now: turn?.act?.line === k + 1, raced: raced.includes(k + 1) }) },
      marked(k + 1, { number: true }),
      make("span", { class: "next", title: `next: node ${next}` }, ...next.length > 3 && run.nodes > 4 ? [badge(counted(next.length, "node"))] : next.map(badge)),
      make("code", { title: text }, text.slice(0, comment), caption(text.slice(comment))));
  }));
}

/** Scrolls to a word of the act, below the headings of a table; in one column the whole page, between the header and the buttons. */
function revealWord(word) {
  const { nodes, headings } = regions;
  const scrolls = isInOneColumn() || nodes.scrollHeight > nodes.clientHeight || nodes.scrollWidth > nodes.clientWidth;
  if (!scrolls) return;
  word.style.scrollMarginTop = `${headings.offsetHeight}px`;
  word.scrollIntoView({ block: "nearest", inline: "nearest" });
}

/** Scrolls a region, where it scrolls by itself, until a part of it is seen. */
function reveal(part, region) { if (region.scrollHeight > region.clientHeight) part.scrollIntoView({ block: "nearest" }); }

/** First without grids; then with those that what is left of the window has room for. */
function drawNodes(turn, states, before, scale) {
  const raced = racesAt(at).flatMap(turnsOf);
  const views = states.map((state, node) => ({ node, state, before: before[node], turn: turn?.node === node ? turn : null, raced }));
  const alone = wordsAlone(scale);
  drawPanels(views, alone, []);
  if (!run.slices.length) return;
  const words = run.nodes > 4 ? [...alone, ...touchedLately(alone)].sort((one, other) => one - other) : alone;
  if (words.length > alone.length) drawPanels(views, words, []);
  const room = roomForGrids();
  for (let tries = 0; tries < 5; tries++) {
    drawPanels(views, words, gridsFor(room));
    const over = nodesHeight() - room.most;
    if (over < 1) return;
    room.height -= over / room.em;
  }
}

function drawPanels(views, words, grids) {
  const isTable = run.nodes > 4;
  const pages = byPage(words, isTable ? [] : grids.flatMap(wordsOfGrid));
  for (const view of views) drawNode({ ...view, pages, grids: isTable ? [] : grids });
  drawHeadings(pages);
  const acting = views.find(({ turn }) => turn) ?? views[0];
  regions.arrays.replaceChildren(...isTable && grids.length ? arraysOfNode(acting, grids) : []);
}

/** The words in use that are no array's, each in its place from the start; where they are many, those of the turns in the picture. */
function wordsAlone({ first, shown }) {
  const alone = run.inUse.filter(word => !run.arrays.has(word));
  const near = new Set(run.moments.slice(first, first + shown).flatMap(({ turn }) => turn?.act?.word ?? []));
  return alone.length <= 64 ? alone : alone.filter(word => near.has(word));
}

/** Words by their pages; pages that only words in grids have stand there too, without words. */
function byPage(words, inGrids) {
  const pages = new Map([...words, ...inGrids].map(word => [pageNumber(word), []]).sort(([one], [other]) => one - other));
  for (const word of words) pages.get(pageNumber(word)).push(word);
  return pages;
}
function pageNumber(word) { return Math.floor(word / run.page); }

function drawNode(view) {
  const { node, state, before, turn } = view;
  const panel = document.getElementById(`node-${node}`);
  const waits = waitsInWords(state);
  const time = state.time.map((entry, other) => make("li", { class: classes({ own: other === node, changed: entry !== before.time[other] }) }, entry));
  panel.classList.toggle("now", turn !== null);
  panel.replaceChildren(make("h2", {}, badge(node)),
    make("span", { class: classes({ line: true, changed: state.at !== before.at }) }, caption(endOf(state) === "unfinished" ? "next line " : "at line "), state.at),
    make("span", { class: "waits", title: waits }, marked(waits, { changed: waits && waits !== waitsInWords(before) })),
    make("ol", { class: "time", "aria-label": "time" }, ...time),
    ...view.grids.length ? [make("div", { class: "grids" }, ...view.grids.map(grid => gridTable(view, grid)))] : [],
    make("div", { class: "pages" }, ...[...view.pages].map(([page, words]) => pageCopy(view, pageOf(state, page), words))),
    make("p", { class: "chips" }, ...tokens(view), ...namesAndPrints(view)),
    make("p", { class: "chips stored" }, caption(`${state.intervals.length} stored`), ...notices(view)));
}

/** Above the rows that many nodes have: the nodes of the times, the words of the pages. */
function drawHeadings(pages) {
  const cells = (name, items) => make("ol", { class: name }, ...items);
  const ofWords = words => words.map(word => make("li", { class: "word", style: labelWidth(word), title: labelled("word", word) },
    word, make("span", { class: "name" }, nameOf(word))));
  const ofPages = [...pages].map(([page, words]) => make("div", { class: "page" }, make("h3", {}, `page ${page}`), cells("words", ofWords(words))));
  regions.headings.replaceChildren(make("h2", {}), make("span", {}, "next"), make("span", {}),
    cells("time", run.states.map((_, node) => make("li", {}, node))), make("div", { class: "pages" }, ...ofPages), make("span", {}));
}

function pageCopy(view, copy, words) {
  const { node, state, before } = view;
  const { page, lacks, keeper, base } = copy;
  const inGrids = view.grids.flatMap(wordsOfGrid).filter(word => pageNumber(word) === page);
  const newer = [...words, ...inGrids].map(word => newerWrite(state, word)).filter(write => write && !isToldOf(state, write));
  const untold = [...new Set(newer.sort((one, other) => one.position - other.position).map(write => `${write.node}.${write.interval}`))];
  const kept = keeper === node ? `kept here${base ? ", with a base" : ""}` : copy.copy === "absent" ? `kept by node ${keeper}` : "";
  return make("div", { class: "page", "data-copy": copy.copy },
    make("h3", {}, `page ${page} `, make("b", { class: classes({ changed: copy.copy !== pageOf(before, page).copy }) }, copy.copy)),
    make("p", { class: "notes" },
      lacks.length ? marked(`lacks ${listed(lacks)}`, { off: true }) : null,
      untold.length ? marked(`not told of ${listed(untold)}`, { off: true }) : null,
      run.isCollected ? caption(kept) : null),
    words.length ? make("ul", { class: "words" }, ...words.map(word => wordCell(view, word))) : null);
}

/** What is shown of a word in a node's copy: its value, its marks, and in words what was done to it, its twin, or what it gives now. */
function wordIn({ node, state, before, turn, raced }, word) {
  const { copy, twin } = copyOf(state, word);
  const value = valueOf(state, word);
  const newer = newerWrite(state, word);
  const twinned = twin?.[word] ?? "0";
  const done = turn?.act?.word === word ? { read: "read", write: "written" }[turn.act.kind] : "";
  const isRaced = raced.some(other => other.node === node && other.act.word === word);
  return {
    copy, newer, done,
    text: copy === "absent" ? "\u2013" : value,
    twinValue: twin && twinned !== value && !newer && !done ? twinned : null,
    holds: { touched: done || isRaced, raced: isRaced, stale: newer, changed: value !== valueOf(before, word) },
    title: newer ? `node ${newer.node} wrote ${newer.value} at act ${newer.position}, line ${newer.line}` : labelled("word", word),
  };
}

function wordCell(view, word) {
  const { text, done, twinValue, newer, holds, title } = wordIn(view, word);
  return make("li", { class: classes({ word: true, ...holds }), style: labelWidth(word), title },
    marked(numbered("word", word), { name: true }),
    marked(text, { value: true }),
    make("span", { class: "note" }, done || (twinValue === null ? "" : `twin ${twinValue}`), newer ? marked(` now ${newer.value}`, { off: true }) : null));
}

function tokens({ state, before }) {
  const chips = state.locks.flatMap(lock => {
    const isChanged = differs(lock, before.locks.find(other => other.lock === lock.lock));
    const text = `${labelled("lock", lock.lock)} ${lock.token}${lock.next ? `, next ${lock.next.node}` : ""}`;
    return [marked(text, { chip: true, full: lock.token === "held", away: lock.token === "away", changed: isChanged }),
      lock.recent === null ? null : caption(`last asked: ${lock.recent}`)];
  });
  const { arrived, clean } = state.manager ?? { arrived: [] };
  return [...chips, clean?.length ? `clean: ${listed(clean)}` : arrived.length ? `arrived: ${listed(arrived)}` : null];
}

function namesAndPrints({ node, state, before }) {
  const names = Object.entries(state.names).map(([name, value]) => marked(`${name} = ${value}`, { changed: value !== (before.names[name] ?? "0") }));
  const prints = run.turns.slice(0, at).flatMap(turn => turn.node === node && turn.act?.kind === "print" ? [turn.act.value] : []);
  return [...names, prints.length ? make("b", {}, `prints ${prints.join(", ")}`) : null];
}

/** The stored intervals that name pages, full where their changes are here too. */
function notices({ state, before }) {
  return state.intervals.filter(({ pages }) => pages.length).slice(-5).map(entry => marked(`${entry.interval} p${entry.pages}`, {
    chip: true, full: entry.pages.every(page => entry.changes[page]),
    changed: differs(entry, before.intervals.find(({ interval }) => interval === entry.interval)),
  }));
}

function drawStory(turn, flight) {
  const why = run.why.get(turn?.act?.position);
  const flying = flight.slice(-12).map(message => messageItem(message, { fresh: message.sent === at && turn }));
  const more = flight.length > 12 ? [make("li", {}, `${flight.length - 12} more`)] : [];
  regions.why.replaceChildren(
    ...why ? list("Why", reasonItems(turn.act, why)) : [],
    ...turn?.take ? list("Taken", [messageItem(turn.take)]) : [],
    ...at === lastMoment ? list("The run", runItems(run)) : []);
  regions.flight.replaceChildren(...list(flight.length ? `In flight: ${flight.length}` : "Nothing in flight", [...more, ...flying]));
}

/** Why the act is as it is: by which writes it gives what it gives, and which acts race with it; then what `why` prints of it, as it stands. */
function reasonItems({ position, value }, { lines, races, gives }) {
  return [
    ...gives ? [make("li", { class: "gives" }, `gives ${value}`, ...givenBy(gives))] : [],
    ...races.flatMap((rival, node) => rival ? [make("li", { class: "races" }, ...racesWith(position, rival, node))] : []),
    make("li", {}, make("pre", {}, lines.slice(1).join("\n"))),
  ];
}

function givenBy({ last, unknown }) {
  const known = last.length ? [`; the last write${last.length === 1 ? "" : "s"} that it knows: `, ...last.flatMap((act, k) => [k ? ", " : "", actLink(act)])]
    : [": it knows no write to the word"];
  return unknown === null ? known : [...known, "; the last of all, which it does not know: ", actLink(unknown)];
}

function racesWith(position, { act, of }, node) {
  const { line, kind } = of[act < position ? 0 : 1];
  return ["races with ", actLink(act), `, a ${kind} of node ${node} in line ${line}`];
}

function actLink(act) {
  const moment = run.momentOfAct.get(act);
  return moment ? turnLink(moment, `act ${act}`) : `act ${act}`;
}
function turnLink(moment, text) { return make("a", { href: `#turn=${run.moments[moment].turn.turn}` }, text); }

/** What `explain` tells of the run: how each node ended, without what it printed; the deadlocks; each group of races. */
function runItems({ explain, ends, deadlocks, races }) {
  const kinds = [
    ...ends.flatMap(({ end, prints }) => [...Array(prints).fill(["print"]), [""], ...end === "ended" ? [] : [[""]]]),
    ...deadlocks.map(() => ["deadlock"]),
    ...groupsOf({ races }).flatMap(({ pairs }) => [["race", pairs.flat().map(act => run.momentOfAct.get(act)).find(isKnown => isKnown)], [""]]),
  ];
  return explain.flatMap((line, k) => {
    const [kind, moment] = kinds[k] ?? [""];
    return kind === "print" ? [] : [make("li", { class: classes({ [kind]: kind }) }, moment ? turnLink(moment, line) : line)];
  });
}

function list(title, items) { return [make("h2", {}, title), make("ul", {}, ...items)]; }
function messageItem({ from, to, message }, holds = {}) { return make("li", { class: classes(holds) }, badge(from), " \u2192 ", badge(to), ` ${message}`); }

// ---- The picture of the run so far: a lane for each node, time from left to right ----

let firstShown = 1;

/** Where turns and nodes stand. The first turn that is shown stays where it is, until the turn of this moment leaves the picture. */
function scaleOfTimeline() {
  const em = parseFloat(getComputedStyle(regions.timeline).fontSize);
  const left = 4.5 * em;
  const room = regions.timeline.clientWidth - left;
  const lane = em * Math.min(3.8, Math.max(1, 9 / run.nodes));
  const step = Math.min(5.8 * em, Math.max(4.7 * em, room / lastMoment));
  const shown = Math.floor(room / step);
  if (at < firstShown || at > firstShown + shown - 2) firstShown = at - Math.floor(shown * 2 / 3);
  firstShown = Math.max(1, Math.min(firstShown, lastMoment + 1 - shown));
  const first = firstShown;
  return { em, left, room, lane, step, first, shown, x: moment => left + (moment - first + .5) * step, y: node => (node + .6) * lane };
}

function drawTimeline(turn, states, flight, scale) {
  const { left, room, lane, step, first, shown, x, y } = scale;
  const height = (run.nodes + .2) * lane;
  const moments = run.moments.map((_, moment) => moment).slice(first, first + shown);
  regions.timeline.setAttribute("viewBox", `0 0 ${left + room} ${height}`);
  regions.timeline.replaceChildren(
    turn ? make("rect", { class: "cursor", x: x(at) - step / 2, y: 0, width: step, height }) : "",
    ...turn ? states.flatMap((_, node) => known(turn.node, states[turn.node], node, scale)) : [],
    ...states.map((_, node) => make("line", { class: "lane", x1: left, x2: left + room, y1: y(node), y2: y(node) })),
    ...run.messages.flatMap(message => arrows(message, turn, flight, scale)),
    ...racesAt(at).filter(({ pair }) => pair[1] <= at).flatMap(race => raceLine(race, scale)),
    ...moments.map(moment => turnMark(moment, run.moments[moment].turn, scale)),
    make("rect", { class: "margin", x: 0, y: 0, width: left, height }),
    ...states.map((_, node) => make("text", { x: left / 2, y: y(node) }, `node ${node}`)));
  regions.timeline.onclick = event => go(Math.floor((event.offsetX - left) / step) + first);
}

/** What the acting node knows of a node: a band from the left to the end of the last interval that its time covers. */
function known(acting, { time }, node, { em, left, lane, step, first, x, y }) {
  const moment = node === acting ? at : momentKnown({ time }, node);
  const isBefore = moment < first;
  const end = isBefore ? left : x(moment) + step / 2;
  const top = y(node) - lane * .46;
  const band = make("rect", { class: "known", x: left, y: top, width: end - left, height: lane * .92 });
  if (node === acting) return [band];
  const words = time[node] ? `known to ${node}.${time[node]}` : "nothing known";
  const limit = lane > 2.5 * em ? make("text", { class: isBefore ? "limit after" : "limit", x: end + em * (isBefore ? .4 : -.3), y: y(node) + lane * .42 }, words) : "";
  return [band, make("line", { class: "limit", x1: end, x2: end, y1: top, y2: top + lane * .92 }), limit];
}

/** A straight way between two lanes, a low arc within one. */
function way([x1, y1], [x2, y2], { lane }) {
  return y1 === y2 ? `M${x1} ${y1} Q${(x1 + x2) / 2} ${y1 - lane * .8} ${x2} ${y2}` : `M${x1} ${y1} L${x2} ${y2}`;
}

/** A message's arrows: to where it was taken, and towards where it will be; where many are in flight, only those of the acting node. */
function arrows(message, turn, flight, scale) {
  const { from, to, sent, takes } = message;
  const { x, y, step, first } = scale;
  if (sent > at || Math.max(sent, takes.at(-1) ?? at) < first) return [];
  const arrow = (kind, end) => make("path", { class: `message ${kind}`, d: way([x(sent), y(from)], end, scale) });
  const done = takes.filter(moment => moment <= at).map(moment => arrow("", [x(moment), y(to)]));
  const isNear = flight.length <= 12 || [from, to].includes(turn?.node);
  const towards = [x(at) + step / 2, y(from) + (y(to) - y(from)) * .7];
  return isNear && flight.includes(message) ? [...done, arrow("flying", towards)] : done;
}

function raceLine(race, scale) {
  const [one, other] = race.pair.map(moment => [scale.x(moment), scale.y((run.moments[moment].turn ?? race.beyond).node)]);
  return [make("path", { class: "racing", d: way(one, other, scale) }),
    make("text", { class: "racing", x: (one[0] + other[0]) / 2, y: (one[1] + other[1]) / 2 }, raceName(race))];
}

function turnMark(moment, { node, act }, { em, lane, step, x, y }) {
  const height = Math.min(1.7 * em, lane * .8);
  if (moment > at) return make("circle", { class: "later", cx: x(moment), cy: y(node), r: em * .2 });
  const isRaced = racesAt(moment).some(({ pair }) => pair[1] <= at);
  const mark = classes({ mark: true, raced: isRaced, now: moment === at, quiet: act?.kind === "quiet" });
  if (!act || act.kind === "quiet") return make("circle", { class: mark, cx: x(moment), cy: y(node), r: height * (act ? .16 : .26) });
  const label = inShort(act);
  const squeezed = label.length > 6 ? { textLength: step * .84, lengthAdjust: "spacingAndGlyphs" } : {};
  return make("g", {},
    make("rect", { class: mark, x: x(moment) - step * .45, y: y(node) - height / 2, width: step * .9, height, rx: height / 3 }),
    make("text", { x: x(moment), y: y(node), "font-size": Math.min(em, lane * .75), ...squeezed }, label));
}

function inShort({ kind, word, value, lock }) {
  const short = value?.length > 4 ? `${value.slice(0, 3)}\u2026` : value;
  return { read: `r${word}=${short}`, write: `w${word}=${short}`, acquire: `acq ${lock}`, release: `rel ${lock}`, print: `print ${short}` }[kind] ?? kind;
}

// ---- Moving ----

const keys = {
  "Home": () => go(0), "End": () => go(lastMoment),
  "ArrowLeft": () => go(at - 1), "ArrowRight": () => go(at + 1),
  "PageUp": () => go(at - 1), "PageDown": () => go(at + 1), // what a presenter's clicker sends
  "Shift+ArrowLeft": () => go(at - 10), "Shift+ArrowRight": () => go(at + 10),
  "a": () => goToNext(({ turn }) => turn.act, "no act after this turn"),
  "r": () => goToNext((_, moment) => racesAt(moment).length, "no act after this one races"),
  "R": () => goBack((_, moment) => racesAt(moment).length, "no act before this one races"),
  "[": () => onTheSame(goBack, "before"), "]": () => onTheSame(goToNext, "after"),
  "{": () => ofTheSame(goBack, "before"), "}": () => ofTheSame(goToNext, "after"),
  "g": () => ask("Turn 13, act a8, or the next act of line l9:", goToNumber),
  "/": () => ask("The next headline with:", text => find(text)),
  "n": () => find(sought),
  " ": () => play(!playing),
  "?": () => regions.help.showModal(),
};

function press(key) {
  if (key !== " ") play(false);
  keys[key]();
}

function onKey(event) {
  const { key: name, shiftKey, ctrlKey, metaKey, altKey, target } = event;
  const key = shiftKey && name.startsWith("Arrow") ? `Shift+${name}` : name;
  // Where a sign is typed with AltGr, or with Alt, the sign is the key.
  const isSign = /^[^\w ]$/.test(name);
  const isChord = metaKey || (isSign ? ctrlKey && !altKey : ctrlKey || altKey);
  const isForAnother = isChord || regions.help.open || regions.ask.open || (key === " " && target.closest("nav button"));
  if (isForAnother || !(key in keys)) return;
  event.preventDefault();
  press(key);
}

function go(moment) {
  at = Math.max(0, Math.min(lastMoment, moment));
  history.replaceState(null, "", at ? `#turn=${run.moments[at].turn.turn}` : "#");
  say("");
  draw();
}

/** Goes to a moment, or says why there is none. */
function goOr(moment, none) { if (moment > 0) go(moment); else say(none); }
function goToNext(holds, none) { goOr(run.moments.findIndex((moment, k) => k > at && holds(moment, k)), inPart(none)); }
function goBack(holds, none) { goOr(run.moments.findLastIndex((moment, k) => 0 < k && k < at && holds(moment, k)), inPart(none)); }
function inPart(text) { return run.isPart ? `${text}, in this part` : text; }

/** To an act beside this one on the same word or lock. */
function onTheSame(goOn, side) {
  const thing = touched(run.moments[at].turn?.act);
  if (thing) goOn(({ turn }) => touched(turn.act) === thing, `no act ${side} this one touches ${thing}`);
  else say("this turn touches no word and no lock");
}
function touched(act) {
  return !act ? null : act.word !== null ? labelled("word", act.word) : ["acquire", "release"].includes(act.kind) ? labelled("lock", act.lock) : null;
}

/** To an act beside this turn of the same node. */
function ofTheSame(goOn, side) {
  const { turn } = run.moments[at];
  if (turn) goOn(other => other.turn.act && other.turn.node === turn.node, `no act of node ${turn.node} ${side} this turn`);
  else say("no node acts here");
}

/** To a turn by its number, to an act (a8), or to the next act of a line (l9). */
function goToNumber(text) {
  const [, kind, digits] = /^([al]?) *(\d+)$/.exec(text.trim().toLowerCase()) ?? [];
  const number = Number(digits);
  if (!digits) say(`no number: ${text}`);
  else if (kind === "a") goOr(run.momentOfAct.get(number), inPart(`no act ${number}`));
  else if (kind === "l") goToNext(({ turn }) => turn.act?.line === number, `no act of line ${number} after this turn`);
  else goOr(momentOfTurn(number), noTurn(number));
}
function momentOfTurn(number) { return run.turns.findIndex(({ turn }) => turn === number) + 1; }
function noTurn(number) {
  return run.turns.length ? `no turn ${number}: ${run.isPart ? "this part" : "the run"} has turns ${run.turns[0].turn} to ${run.turns.at(-1).turn}` : `no turn ${number}`;
}

let sought = "";

/** To the next headline that has a text, from the end to the start. */
function find(text) {
  sought = text;
  if (!text) return say("no text to find: press / first");
  const order = [...run.moments.keys()].map(k => (at + 1 + k) % run.moments.length).filter(k => k > 0);
  goOr(order.find(k => headline(run.moments[k]).toLowerCase().includes(text.toLowerCase())) ?? 0, inPart(`no headline has: ${text}`));
}

function ask(label, then) {
  regions.asking.textContent = label;
  regions.asked.value = "";
  regions.ask.querySelector("form").onsubmit = () => then(regions.asked.value);
  regions.ask.showModal();
}

function say(text) { regions.said.textContent = text; }

function goToLink() {
  const [, turn] = /^#turn=(\d+)$/.exec(location.hash) ?? [];
  const moment = turn ? momentOfTurn(Number(turn)) : 0;
  go(moment);
  if (turn && !moment) say(noTurn(turn));
}

let playing = null;

function play(isOn) {
  clearInterval(playing);
  playing = isOn ? setInterval(() => at < lastMoment ? go(at + 1) : play(false), 1500) : null;
  regions.play.textContent = isOn ? "Stop" : "Play";
}

function start() {
  const pages = run.turns.flatMap(({ state }) => state.pages);
  const digits = pages.flatMap(({ words }) => Object.values(words)).reduce((most, value) => Math.max(most, value.length), 1);
  run.digits = digits;
  run.isCollected = pages.some(({ keeper, base }) => keeper > 0 || base);
  document.title = run.turns.length ? `${run.program}, turns ${run.turns[0].turn} to ${run.turns.at(-1).turn}` : `${run.program}, no turn`;
  document.body.style = `--digits: ${digits}; --narrow: ${Math.min(1, 12 / digits)}; --badges: ${Math.min(4, run.nodes)}; --nodes: ${run.nodes}`;
  document.body.className = classes({ rows: run.nodes > 4, wide: run.nodes < 3, dense: run.nodes < 5 && run.slices.length }) ?? "";
  regions.nodes.append(...run.states.map((_, node) => make("section", { class: "node", id: `node-${node}`, "aria-label": `node ${node}` })), regions.arrays);
  regions.slider.max = lastMoment;
  regions.slider.oninput = () => go(+regions.slider.value);
  for (const button of document.querySelectorAll("[data-key]")) button.onclick = () => press(button.dataset.key);
  addEventListener("keydown", onKey);
  addEventListener("hashchange", goToLink);
  addEventListener("resize", draw);
  goToLink();
}

start();
</script>
</body>
</html>
"##;
