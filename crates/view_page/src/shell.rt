//! The markup of a page, page/page.html. Written by `.ci/page --write`.

pub(crate) const HEAD: &str = r##"<!doctype html>
<html lang="en">
<head>
<meta charset="utf-8">
<meta name="viewport" content="width=device-width, initial-scale=1">
<meta http-equiv="Content-Security-Policy" content="default-src 'none'; style-src 'unsafe-inline'; script-src 'unsafe-inline'; img-src blob: data:">
<title>A run</title>
</head>
<body>
<header>
<h1 id="title">A run</h1>
<div class="tools" role="toolbar" aria-label="View">
<label>Axis <select id="axis"><option value="events">events</option><option value="steps">Steps</option><option value="ticks">ticks</option></select></label>
<button id="out" title="Zoom out (-)" aria-label="Zoom out">&minus;</button>
<button id="in" title="Zoom in (+)" aria-label="Zoom in">+</button>
<button id="all" title="The whole run (0)">All</button>
<form id="search" role="search"><input id="query" type="search" placeholder="task, object, line, kind or event" aria-label="Search: task, object, line, kind or event" autocomplete="off"><button id="previous" type="button" title="Previous (N)" aria-label="Previous match">&uarr;</button><button id="next" title="Next (n)" aria-label="Next match">&darr;</button></form>
<button id="save" title="The window as SVG (s)">SVG</button>
<button id="help" title="Keys (?)" aria-expanded="false" aria-controls="keys">?</button>
</div>
</header>
<div id="keys" hidden>
<table>
<tr><th>wheel, pinch, <kbd>+</kbd> <kbd>-</kbd><td>zoom</tr>
<tr><th>drag, <kbd>Shift</kbd> wheel, <kbd>&larr;</kbd> <kbd>&rarr;</kbd><td>pan</tr>
<tr><th><kbd>&uarr;</kbd> <kbd>&darr;</kbd>, wheel on names<td>the lane above, below</tr>
<tr><th><kbd>.</kbd> <kbd>,</kbd><td>the next, the previous event of the lane</tr>
<tr><th><kbd>]</kbd> <kbd>[</kbd><td>the next, the previous event of the run</tr>
<tr><th><kbd>e</kbd> <kbd>c</kbd><td>what the event caused, what caused it</tr>
<tr><th><kbd>/</kbd>, <kbd>n</kbd> <kbd>N</kbd><td>search, the next, the previous match</tr>
<tr><th><kbd>Enter</kbd> <kbd>0</kbd> <kbd>Home</kbd> <kbd>End</kbd><td>the event, the whole run, the first, the last event</tr>
<tr><th><kbd>a</kbd> <kbd>o</kbd> <kbd>d</kbd> <kbd>s</kbd><td>the next axis, the other run, where they part, save SVG</tr>
</table>
<p id="signs"></p>
</div>
<main>
<div id="chart"><div id="space"></div><canvas id="canvas" tabindex="0" role="application" aria-roledescription="timeline" aria-label="Lanes of the run" aria-owns="lanes" aria-describedby="told"></canvas></div>
<ul id="lanes" class="hidden" role="listbox" aria-label="Lanes"></ul>
<canvas id="map" aria-hidden="true"></canvas>
<aside id="panel" aria-label="The selected event"><div id="told" aria-live="polite"><p>Click on anything, or press <kbd>.</kbd> for the first event.</p></div></aside>
</main>
<div id="print"></div>
"##;

pub(crate) const TAIL: &str = r##"</body>
</html>
"##;
