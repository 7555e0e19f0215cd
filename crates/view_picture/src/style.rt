//! Colours: those of Okabe and Ito (Color Universal Design), which readers tell apart who see few colours; for light and for dark.

/// The style sheet of a picture.
pub(crate) const STYLE: &str =
    "svg{font-family:ui-monospace,Menlo,Consolas,'DejaVu Sans Mono',monospace;font-size:10px}\
text{fill:#1b1b1b}.b{font-size:13px;font-weight:600}.l{font-size:9px}.s{font-size:8px}.s,.r{text-anchor:middle}\
text.d,text.r{fill:#5f5f5f}text.k{fill:#000}text.w{fill:#fff}\
.paper{fill:#fff}.row{fill:#ececec}.tick{stroke:#5f5f5f;stroke-width:1}.part{stroke:#d55e00;stroke-width:3}\
.t0{fill:#56b4e9}.t1{fill:#e69f00}.t2{fill:#009e73}.t3{fill:#f0e442}.t4{fill:#0072b2}.t5{fill:#d55e00}.t6{fill:#cc79a7}.t7{fill:#999}\
.stall{fill:#000;fill-opacity:.2;stroke:#1b1b1b;stroke-dasharray:3 2}\
.e{fill:#d9d9d9}.step{fill:#bdbdbd;stroke:#1b1b1b}.out{fill:#fff;stroke:#d55e00;stroke-width:1.5}.many{stroke:#5f5f5f;stroke-dasharray:2 2}\
.hollow{fill:#fff;stroke:#d55e00;stroke-width:1.5}.raise{fill:#d55e00}.receive{fill:none;stroke:#1b1b1b;stroke-width:1.5}.play{fill:#1b1b1b;stroke:#fff}\
.wait{fill:#d55e00}.wake{fill:#009e73}.boost{fill:#cc79a7}.fall{fill:#5f5f5f}.flag{fill:#0072b2}.alarm{fill:#d55e00}\
line.wait{stroke:#d55e00}line.wake{stroke:#009e73}line.boost{stroke:#cc79a7}line.fall{stroke:#5f5f5f}\
line.wait,line.wake{stroke-width:1.6}line.boost{stroke-width:2.6}line.fall{stroke-width:1.6;stroke-dasharray:3 2}\
text.wait,text.wake,text.boost,text.fall,text.flag,text.alarm,text.hollow{fill:#1b1b1b;stroke:none}\
@media(prefers-color-scheme:dark){text,text.wait,text.wake,text.boost,text.fall,text.flag,text.alarm,text.hollow{fill:#ececec}\
text.d,text.r{fill:#a5a5a5}text.k{fill:#000}text.w{fill:#fff}.paper{fill:#15171a}.row{fill:#2c3036}.tick{stroke:#a5a5a5}\
.stall{fill:#fff;stroke:#ececec}.e{fill:#4a4f57}.step{fill:#6b727c;stroke:#ececec}.out,.hollow{fill:#15171a}.many{stroke:#a5a5a5}\
.receive{stroke:#ececec}.play{fill:#ececec;stroke:#000}.fall{fill:#a5a5a5}line.fall{stroke:#a5a5a5}.flag{fill:#56b4e9}}";
