//! The document: its head, with the policy and the styles, and the elements that the script fills.

/// Up to the graph's path.
pub const TO_GRAPH_PATH: &str = r##"<!doctype html>
<html lang="en">
<head>
<meta charset="utf-8">
<meta name="viewport" content="width=device-width, initial-scale=1">
<meta name="color-scheme" content="light dark">
<meta name="referrer" content="no-referrer">
<meta http-equiv="Content-Security-Policy" content="default-src 'none'; img-src data:; style-src 'sha256-40dfjfuvPgmtZHfoIN1+W0KP9GjlJ/20S/jTBZ3tH7I=' 'sha256-b5pLL4DDQRGi8jYuJy2XioOarBdXNQ4so83wsJxK5gc='; script-src 'sha256-DT5Os/fjnf3qyjDT4zy75SuWIBeem4Oc29EF+YK1x1Q='; base-uri 'none'; form-action 'none'">
<title>backfill</title>
<style>
:root {
  --bg: #fff; --panel: #f6f8fa; --fg: #1c2128; --muted: #59636e; --line: #d1d9e0; --accent: #0a5fd6; --row: #eef4fc; --mark: #fff;
  --s0: #008000; --s1: #db0a0a; --s2: #c96800; --s3: #d6378f; --s4: #3d82ab;
  --cross: url("data:image/svg+xml,%3Csvg xmlns='http://www.w3.org/2000/svg' viewBox='0 0 10 10'%3E%3Cpath d='M2 2L8 8M8 2L2 8' stroke='%23000' stroke-width='2' stroke-linecap='round'/%3E%3C/svg%3E");
  --up: url("data:image/svg+xml,%3Csvg xmlns='http://www.w3.org/2000/svg' viewBox='0 0 10 10'%3E%3Cpath d='M5 1.4L9.2 8.6H.8Z'/%3E%3C/svg%3E");
  --bar: url("data:image/svg+xml,%3Csvg xmlns='http://www.w3.org/2000/svg' viewBox='0 0 10 10'%3E%3Cpath d='M1.5 5H8.5' stroke='%23000' stroke-width='2' stroke-linecap='round'/%3E%3C/svg%3E");
  --dot: url("data:image/svg+xml,%3Csvg xmlns='http://www.w3.org/2000/svg' viewBox='0 0 10 10'%3E%3Ccircle cx='5' cy='5' r='2'/%3E%3C/svg%3E");
  --mono: ui-monospace, SFMono-Regular, Menlo, Consolas, "DejaVu Sans Mono", monospace;
}
@media (prefers-color-scheme: dark) {
  :root {
    --bg: #0f1318; --panel: #171c23; --fg: #e6edf3; --muted: #97a1ad; --line: #303842; --accent: #6cb2ff; --row: #18222e; --mark: #14181d;
    --s0: #2fa84f; --s1: #ff5449; --s2: #ffa116; --s3: #ff69b4; --s4: #8cc7e6;
  }
}
* { box-sizing: border-box; }
html { height: 100%; background: var(--bg); color: var(--fg); font: 14px/1.45 system-ui, -apple-system, "Segoe UI", Roboto, "Noto Sans", "DejaVu Sans", sans-serif; }
body { height: 100%; margin: 0; display: flex; flex-direction: column; }
h1, h2, h3, p, ul, dl, dd, pre { margin: 0; padding: 0; }
button, input { font: inherit; color: inherit; }
button { background: none; border: 1px solid var(--line); border-radius: 6px; padding: 2px 9px; cursor: pointer; }
button:hover { border-color: var(--muted); }
button:disabled { opacity: .4; cursor: default; }
a { color: var(--accent); text-decoration: none; }
a:hover { text-decoration: underline; }
:focus-visible { outline: 2px solid var(--accent); outline-offset: 1px; }
[hidden] { display: none !important; }
.mono, pre { font-family: var(--mono); font-size: 12px; }
.muted { color: var(--muted); }
.bad { color: var(--s1); }
.skip { position: absolute; left: -9999px; }
.skip:focus { left: 8px; top: 8px; z-index: 9; background: var(--bg); padding: 6px 10px; }

header { padding: 14px 20px 0; }
h1 { font-size: 20px; line-height: 1.3; overflow-wrap: anywhere; }
.bar { display: flex; flex-wrap: wrap; align-items: center; gap: 6px 8px; margin: 10px 0; }
.bar .gap { flex: 1; }
.chip { display: inline-flex; align-items: center; gap: 6px; border-radius: 999px; padding: 3px 11px 3px 8px; }
.chip b { font-variant-numeric: tabular-nums; }
.chip[aria-pressed=true] { outline: 2px solid var(--accent); outline-offset: -2px; background: var(--row); }
[role=tab] { border: 0; border-radius: 0; padding: 3px 2px 5px; margin-right: 10px; color: var(--muted); }
[role=tab][aria-selected=true] { color: var(--fg); border-bottom: 2px solid var(--accent); padding-bottom: 3px; font-weight: 600; }
input { width: 190px; padding: 3px 9px; border: 1px solid var(--line); border-radius: 6px; background: var(--bg); }
.note { margin: 0 20px 8px; padding: 6px 12px; border: 1px solid var(--line); border-left: 3px solid var(--s2); border-radius: 4px; }

main { flex: 1; min-height: 0; display: grid; grid-template: minmax(0, 1fr) / minmax(0, 1fr) 390px; border-top: 1px solid var(--line); }
section, #grid-view, #graph-view, #gantt-view { min-width: 0; min-height: 0; display: flex; flex-direction: column; }
section { padding: 4px 0 0 20px; }
section .bar { padding-right: 16px; }
#grid-view, #graph-view, #gantt-view { flex: 1; }
aside { min-width: 0; overflow: auto; padding: 14px 18px 24px; background: var(--panel); border-left: 1px solid var(--line); }

/* A square: its state by colour and by a mark. */
.q { position: relative; flex: none; width: 16px; height: 16px; border-radius: min(3px, calc(var(--pw, 18px) / 5)); color: var(--mark); background: var(--s0); forced-color-adjust: none; display: inline-block; vertical-align: -3px; }
.q::after { content: ""; position: absolute; inset: 0; background: currentColor; -webkit-mask: var(--m, none) center / min(10px, 100%) 10px no-repeat; mask: var(--m, none) center / min(10px, 100%) 10px no-repeat; display: none; }
.s1, .s2, .s3 { --m: var(--bar); }
.s1::after, .s2::after, .s3::after, .re::after { display: block; }
.re { --m: var(--dot); }
.s1 { background: var(--s1); --m: var(--cross); }
.s2 { background: var(--s2); --m: var(--up); }
.s3 { background: var(--s3); }
.s4 { background: none; box-shadow: inset 0 0 0 2px var(--s4); }
.ex { height: 12px; margin-top: 4px; }
.ex::before { content: ""; position: absolute; left: 14%; right: 14%; top: -4px; height: 2px; border-radius: 1px; background: var(--s0); }
.ex.s1::before { background: var(--s1); }
.ex.s3::before { background: var(--s3); }
.odd { outline: 1px dashed var(--fg); outline-offset: 1px; }
.none { visibility: hidden; }
.gone { display: none; }
.dim { opacity: .22; }

#map { display: block; width: calc(100% - 20px); height: 40px; margin-bottom: 10px; cursor: crosshair; image-rendering: pixelated; touch-action: none; }
#mapbox { position: relative; flex: none; }
#brush { position: absolute; border: 2px solid var(--fg); border-radius: 3px; pointer-events: none; box-shadow: 0 0 0 1px var(--bg); }
#grid, #gantt { position: relative; overflow: auto; flex: 0 1 auto; min-height: 120px; overscroll-behavior: contain; --pw: 18px; }
#head, #axis { position: sticky; top: 0; z-index: 3; height: 58px; background: var(--bg); }
#axis { height: 30px; }
#head .labels { position: absolute; top: 0; height: 36px; }
#head .corner { position: sticky; left: 0; z-index: 2; float: left; height: 58px; background: var(--bg); padding: 36px 8px 0 0; font-size: 12px; color: var(--muted); text-align: right; }
#head i, #axis i { position: absolute; top: 0; font-style: normal; font-size: 11px; color: var(--muted); white-space: nowrap; border-left: 1px solid var(--line); padding-left: 3px; line-height: 15px; }
#head .u { position: absolute; top: 18px; font-size: 10px; width: 18px; text-align: center; font-variant-numeric: tabular-nums; color: var(--muted); }
#head .cells { top: 37px; height: 22px; }
#rows, #bars { position: relative; }
.row { position: absolute; left: 0; width: 100%; height: 22px; }
.row.on, .row.on .name { background: var(--row); }
.cells { position: absolute; top: 3px; display: flex; gap: 2px; height: 16px; }
.cells .q { width: calc(var(--pw) - 2px); cursor: pointer; }
.cells .at { outline: 2px solid var(--accent); outline-offset: 1px; z-index: 1; opacity: 1; }
#band { position: absolute; top: 0; bottom: 0; width: var(--pw); background: var(--row); margin-left: -1px; }
.name { position: sticky; left: 0; z-index: 2; float: left; height: 22px; background: var(--bg); font: 12px/22px var(--mono); padding-right: 8px; display: flex; cursor: pointer; }
.name:hover .id { text-decoration: underline; text-decoration-color: var(--line); text-underline-offset: 3px; }
.name.at { box-shadow: inset 0 0 0 2px var(--accent); border-radius: 3px; }
.name .id { flex: 1; overflow: hidden; text-overflow: ellipsis; white-space: nowrap; }
.name .pad { flex: none; background: repeating-linear-gradient(90deg, var(--line) 0 1px, transparent 1px 10px); }
.name .fold { flex: none; width: 14px; height: 22px; padding: 0; border: 0; color: var(--muted); font-size: 10px; line-height: 22px; text-align: left; }
.name .n { color: var(--muted); font-size: 11px; margin-left: 6px; }
.name .bad { color: var(--s1); font-weight: 600; font-size: 11px; margin-left: 6px; }
.name .n:empty, .name .bad:empty { display: none; }
.name .rel { color: var(--accent); font-size: 11px; width: 10px; text-align: right; }
#axis .corner { position: sticky; left: 0; z-index: 2; float: left; height: 30px; background: var(--bg); display: flex; gap: 12px; padding-right: 8px; }
#axis .corner :first-child { flex: 1; }
#axis button { border: 0; padding: 4px 0; font-size: 12px; color: var(--muted); }
#axis [aria-sort] button { color: var(--fg); font-weight: 600; }
#axis .labels { position: absolute; top: 6px; height: 24px; }
.took { flex: none; width: 78px; text-align: right; font-variant-numeric: tabular-nums; }
.track { position: absolute; top: 3px; height: 16px; }
.track .q { position: absolute; min-width: 3px; cursor: pointer; }
.track .at { outline: 2px solid var(--accent); outline-offset: 1px; }
#tip { position: fixed; z-index: 8; pointer-events: none; max-width: 340px; padding: 4px 9px; border-radius: 5px; background: var(--fg); color: var(--bg); font-size: 12px; overflow-wrap: anywhere; }
.keys { flex: none; padding: 8px 20px 10px 0; font-size: 12px; line-height: 1.8; color: var(--muted); }
.keys .q { margin-left: 0; transform: scale(.8); }
.keys .q + .q, .keys .ex { margin-left: 12px; }
kbd { font: 11px var(--mono); border: 1px solid var(--line); border-radius: 4px; padding: 0 4px; }

#scroll { flex: 1; overflow: auto; min-height: 200px; display: flex; }
#scroll svg { flex: none; margin: auto; }
svg text { font: 12px var(--mono); fill: var(--fg); }
svg .edge { fill: none; stroke: var(--muted); opacity: .55; }
svg .pale { stroke: var(--line); opacity: 1; }
svg .hot { fill: none; stroke: var(--accent); stroke-width: 2; }
svg .box { fill: var(--bg); stroke: var(--line); stroke-width: 1.5; }
svg a:hover .box { stroke: var(--muted); }
svg a:focus { outline: none; }
svg a:focus-visible .box, svg .on .box { stroke: var(--accent); stroke-width: 2.5; }
svg .fill { stroke-width: 2; forced-color-adjust: none; }
svg .sign { stroke: var(--mark); fill: none; stroke-width: 2; stroke-linecap: round; }
svg .full { fill: var(--mark); stroke: none; }
svg .sub { fill: var(--muted); font-size: 10px; }

aside h2 { font-size: 16px; line-height: 1.4; overflow-wrap: anywhere; }
aside h2.mono { font-size: 15px; }
aside > .muted { margin-top: 4px; }
aside > button { margin-top: 8px; }
aside h3 { font-size: 12px; color: var(--muted); margin: 16px 0 4px; font-weight: 600; display: flex; align-items: center; gap: 5px; overflow-wrap: anywhere; }
aside h3 button { margin-left: auto; padding: 0 7px; font-size: 11px; font-weight: 400; }
aside pre { white-space: pre-wrap; overflow-wrap: anywhere; background: var(--bg); border: 1px solid var(--line); border-radius: 5px; padding: 6px 8px; max-height: 220px; overflow: auto; unicode-bidi: isolate; }
aside p + p { margin-top: 4px; }
aside ul { list-style: none; }
aside li { display: flex; gap: 7px; align-items: baseline; padding: 1px 0; font: 12px/1.6 var(--mono); overflow-wrap: anywhere; }
aside li .q, aside .state .q { align-self: center; margin: 0; }
aside .state { display: flex; align-items: center; gap: 8px; margin: 6px 0; font-weight: 600; }
aside .many { display: flex; flex-wrap: wrap; gap: 3px; }
aside .many a { line-height: 0; }
aside .many .q { vertical-align: 0; }
aside .step { display: flex; gap: 6px; margin-top: 8px; flex-wrap: wrap; }
aside .step a { border: 1px solid var(--line); border-radius: 6px; padding: 1px 8px; font: inherit; font-size: 12px; }
.link { border: 0; padding: 0; color: var(--accent); text-align: left; }

@media (max-width: 900px) {
  html, body { height: auto; }
  main { grid-template-columns: minmax(0, 1fr); }
  section { padding-right: 12px; padding-left: 12px; }
  header { padding: 12px 12px 0; }
  #grid, #gantt, #scroll { max-height: 70vh; }
  aside { border-left: 0; border-top: 1px solid var(--line); }
}
@media print {
  html, body, main, section, aside, #grid, #gantt { height: auto; overflow: visible; max-height: none; }
  main { display: block; }
  .q, .chip { print-color-adjust: exact; -webkit-print-color-adjust: exact; }
  .keys, .bar button:not(.chip), input, #mapbox { display: none; }
}
</style>
<noscript><style>body > :not(.bare, #report) { display: none !important; } #report { display: block; white-space: pre-wrap; overflow-wrap: anywhere; font: 12px monospace; padding: 12px 20px; } .bare { display: block !important; padding: 12px 20px; } body { display: block; padding-top: 12px; }</style></noscript>
</head>
<body>
<noscript class="bare"><p>This page draws its report by JavaScript, which is off. Here is the report as it stands in this file; <code>%25</code>, <code>%3C</code> and <code>%0D</code> are <code>%</code>, <code>&lt;</code> and a carriage return.</p></noscript>
<a class="skip" href="#grid">To the grid</a>
<header>
<h1 id="dag">backfill</h1>
<p id="range"></p>
<div class="bar" id="chips" role="group" aria-label="Show only tasks and runs that have"></div>
</header>
<div id="notes"></div>
<main>
<section>
<div class="bar">
<div role="tablist" aria-label="View"><button role="tab" id="tab-grid" aria-controls="grid-view">Grid</button><button role="tab" id="tab-graph" aria-controls="graph-view">Graph</button><button role="tab" id="tab-gantt" aria-controls="gantt-view" hidden>Gantt</button></div>
<input id="find" type="search" placeholder="Find a task" aria-label="Find a task" autocomplete="off" spellcheck="false">
<span id="shown" class="muted" role="status"></span>
<span class="gap"></span>
<button id="before-failed" title="Previous failed run">&lsaquo; failed</button><button id="next-failed" title="Next failed run">failed &rsaquo;</button>
<span role="group" aria-label="Size"><button id="less" aria-label="Smaller">&minus;</button> <button id="more" aria-label="Larger">+</button></span>
</div>
<div id="grid-view" role="tabpanel" aria-labelledby="tab-grid">
<div id="mapbox" hidden><canvas id="map" aria-hidden="true"></canvas><div id="brush"></div></div>
<div id="grid" role="grid" tabindex="0" aria-label="Tasks by runs"><div id="head" role="row" aria-rowindex="1"></div><div id="rows" role="rowgroup"></div></div>
<p class="keys"><kbd>&larr;</kbd> <kbd>&uarr;</kbd> <kbd>&darr;</kbd> <kbd>&rarr;</kbd> move, <kbd>f</kbd> and <kbd>F</kbd> to the next and the previous failure, <kbd>Enter</kbd> to the details, <kbd>Esc</kbd> back, <kbd>Space</kbd> opens an expanded task<br><span class="q s0 re"></span> success behind failed tries <span class="q s0 ex"></span> expanded: the worst of its instances</p>
</div>
<div id="graph-view" role="tabpanel" aria-labelledby="tab-graph" hidden><div id="scroll"></div></div>
<div id="gantt-view" role="tabpanel" aria-labelledby="tab-gantt" hidden>
<div id="gantt" role="grid" tabindex="0" aria-label="Tries of the run"><div id="axis" role="row" aria-rowindex="1"></div><div id="bars" role="rowgroup"></div></div>
<p class="keys"><kbd>&uarr;</kbd> <kbd>&darr;</kbd> move, <kbd>&larr;</kbd> <kbd>&rarr;</kbd> to the run before and the next, <kbd>l</kbd> to the longest try, <kbd>Enter</kbd> to the details, <kbd>Esc</kbd> back</p>
</div>
</section>
<aside id="details" aria-label="Details" tabindex="-1"></aside>
</main>
<div id="tip" hidden></div>
<script type="text/plain" id="graph-path">"##;
