//! The style of a page, page/page.css. Written by `.ci/page --write`.

pub(crate) const STYLE: &str =
    r##"/* Colours of tasks are those of Okabe and Ito (Color Universal Design); the script reads the variables for the canvas. */
:root {
  color-scheme: light dark;
  --paper: #ffffff; --band: #f4f4f2; --ink: #1b1b1b; --dim: #5f5f5f; --rule: #d8d8d4; --ready: #c9c9c4; --wait: #ffffff;
  --stall: #00000026; --mark: #0b57d0; --alarm: #b3400a; --good: #00704f; --found: #ffdf6b;
}
@media screen and (prefers-color-scheme: dark) {
  :root {
    --paper: #15171a; --band: #1d2024; --ink: #ececec; --dim: #a5a5a5; --rule: #3a3f46; --ready: #4a5058; --wait: #15171a;
    --stall: #ffffff30; --mark: #8ab4f8; --alarm: #ff8f57; --good: #4fd1a5; --found: #6d5a00;
  }
}
* { box-sizing: border-box; }
html, body { height: 100%; margin: 0; }
body { display: flex; flex-direction: column; background: var(--paper); color: var(--ink); font: 13px/1.4 system-ui, sans-serif; }
header { display: flex; flex-wrap: wrap; gap: 6px 16px; align-items: center; padding: 6px 10px; border-bottom: 1px solid var(--rule); }
h1 { font-size: 14px; margin: 0; flex: 1 1 auto; }
h1 small { font-weight: normal; color: var(--dim); }
.tools, #search { display: flex; flex-wrap: wrap; gap: 4px; align-items: center; }
button, select, input { font: inherit; color: inherit; background: var(--band); border: 1px solid var(--rule); border-radius: 4px; padding: 2px 8px; min-height: 26px; }
button:hover { border-color: var(--mark); }
:focus-visible { outline: 2px solid var(--mark); outline-offset: 1px; }
#query { width: 17em; }
main { flex: 1; min-height: 0; display: flex; flex-direction: column; }
#chart { flex: 1; min-height: 80px; position: relative; overflow-y: auto; overflow-x: hidden; }
#canvas { position: sticky; top: 0; display: block; touch-action: none; cursor: default; }
#space { position: absolute; top: 0; width: 1px; visibility: hidden; }
#map { display: block; width: 100%; height: 34px; border-top: 1px solid var(--rule); cursor: ew-resize; touch-action: none; }
#panel { border-top: 1px solid var(--rule); height: 15.5em; overflow: auto; padding: 6px 12px; }
#panel h2 { font-size: 14px; margin: 0 0 4px; }
#panel p { margin: 2px 0; }
#panel ul { margin: 2px 0; padding-left: 18px; columns: 2 30em; }
#panel dl { display: grid; grid-template-columns: max-content 1fr; gap: 1px 12px; margin: 4px 0; }
#panel dt { color: var(--dim); }
#panel dd { margin: 0; }
#panel .hollow { color: var(--alarm); font-weight: 600; }
#panel button { padding: 0 6px; min-height: 0; margin: 1px 2px; text-align: left; }
code, kbd { font: 12px ui-monospace, Menlo, Consolas, 'DejaVu Sans Mono', monospace; }
kbd { border: 1px solid var(--rule); border-radius: 3px; padding: 0 4px; background: var(--band); }
#keys { padding: 6px 12px; border-bottom: 1px solid var(--rule); max-height: 45vh; overflow: auto; }
#keys[hidden] { display: none; }
#keys th { text-align: left; font-weight: normal; padding-right: 16px; }
.hidden { position: absolute; width: 1px; height: 1px; overflow: hidden; clip-path: inset(50%); margin: 0; }
#print { display: none; }
@media print {
  body { display: block; }
  header .tools, #keys, #chart, #map, #lanes { display: none; }
  #panel { height: auto; border: 0; }
  #print { display: block; }
  #print svg { width: 100%; height: auto; }
}
"##;
