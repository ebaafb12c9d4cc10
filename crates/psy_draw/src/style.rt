//! The look of a picture, in a light and a dark theme.

/// The style sheet.
pub const STYLE: &[u8] = b"<style>
text{font-family:ui-monospace,SFMono-Regular,Menlo,Consolas,'DejaVu Sans Mono',monospace;font-size:10px;fill:#1f2328}
path{fill:none;stroke-width:1}
.page{fill:#ffffff}
.name{font-size:12px}
.title text{font-size:12px;font-weight:bold}
.bound,.word,.axis text,.head,.notes text{fill:#6a737d}
.bound,.number{text-anchor:end}
.bound{font-size:9px}
.axis text{text-anchor:middle}
.axis .word{text-anchor:start;font-size:12px}
.grid,.rule,.base{shape-rendering:crispEdges}
.grid{stroke:#eaeef2}
.rule,.base{stroke:#d0d7de}
.tell{fill:#ffffff;fill-opacity:0}
.tell:hover{fill:#6a737d;fill-opacity:.15}
.zero{stroke:#d0d7de;stroke-dasharray:2 4}
.tick{stroke:#6a737d}
.line{stroke:#0969da;stroke-width:1.5}
.box{stroke:#0969da;fill:#ddf4ff}
.dense{fill:#0969da}
.line.silent,.box.silent{fill:none;stroke-dasharray:4 4}
.stream .mark{stroke:#8250df;stroke-width:6;stroke-linecap:round}
.stop path{stroke:#cf222e;stroke-width:1.5}
.stop text{fill:#cf222e}
.stop .mark{stroke-width:9;stroke-linecap:round}
.stop .silence{stroke-dasharray:4 4}
.table text{font-size:11px}
.stop .rule{stroke:#d0d7de;stroke-width:1}
@media (prefers-color-scheme:dark){
text{fill:#e6edf3}
.page{fill:#0d1117}
.bound,.word,.axis text,.table .head,.notes text{fill:#8d96a0}
.grid{stroke:#1f252c}
.rule,.base,.zero,.stop .rule{stroke:#30363d}
.tick{stroke:#8d96a0}
.line{stroke:#4493f8}
.box{stroke:#4493f8;fill:#121d2f}
.dense{fill:#4493f8}
.stream .mark{stroke:#ab7df8}
.stop path{stroke:#f85149}
.stop text{fill:#f85149}
}
</style>
";
