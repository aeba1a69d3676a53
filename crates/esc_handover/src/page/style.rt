//! How a page looks: light or dark as its reader's system is, narrow or wide, and in print.

/// The rules of a page's style (CSS). None of the signs `<`, `>`, `&`, `"` and `'` is in them, so
/// that they are read as they are.
pub(crate) const STYLE: &str = "\
:root{color-scheme:light dark;--page:#fff;--ink:#1b1f24;--quiet:#57606a;--edge:#d0d7de;--soft:#f6f8fa;\
--chain:#0b61a4;--standing:#57606a;--blocked:#8a5a00;--missing:#b3261e;--awaited:#6e40c9;--ok:#1a7f37}\
@media(prefers-color-scheme:dark){:root{--page:#14181d;--ink:#e6e8eb;--quiet:#9aa4af;--edge:#343b44;\
--soft:#1b2027;--chain:#6cb6ff;--standing:#9aa4af;--blocked:#e3b341;--missing:#ff8f85;\
--awaited:#c4a1ff;--ok:#57c773}}\
*{box-sizing:border-box}\
body{margin:0 auto;max-width:72rem;padding:1rem;background:var(--page);color:var(--ink);\
font:1rem/1.5 system-ui,sans-serif}\
h1{margin:.5rem 0;font-size:1.6rem;line-height:1.25}\
h2{margin:2.5rem 0 .75rem;padding-bottom:.25rem;border-bottom:1px solid var(--edge);font-size:1.25rem}\
h3{margin:1.5rem 0 .5rem;font-size:1rem}\
p{margin:.5rem 0}\
.ok{color:var(--ok)}.told{color:var(--blocked)}.wrong{color:var(--missing)}\
.verdict{padding:.6rem .9rem;border:1px solid var(--edge);border-left:.4rem solid;\
border-radius:.25rem;background:var(--soft);font-weight:600}\
.facts,.key{display:flex;flex-wrap:wrap;gap:.25rem 1.5rem;margin:.75rem 0;padding:0;\
color:var(--quiet);list-style:none}\
.facts strong{font-size:1.25rem}\
.facts strong,.key strong{color:var(--ink)}\
.key{font-size:.9rem}\
.key svg{margin-right:.35rem;vertical-align:-.3rem}\
.picture{padding:0 10px}\
.picture svg{display:block;overflow:visible}\
svg text{fill:var(--quiet);font-size:12px}\
svg .lane{fill:var(--ink);font-size:13px;font-weight:600}\
svg .to{text-anchor:end}\
.rail,.grid{stroke:var(--edge)}\
.grid{stroke-dasharray:2 4}\
.way{stroke:var(--chain);stroke-width:3;stroke-linecap:round}\
line.moment{stroke:var(--ink);stroke-dasharray:5 4}\
text.moment{fill:var(--ink)}\
#chain{fill:var(--chain)}\
#standing{fill:var(--page);stroke:var(--standing);stroke-width:2}\
#blocked{fill:var(--blocked)}\
#missing{fill:none;stroke:var(--missing);stroke-width:2.5;stroke-linecap:round}\
#awaited{fill:none;stroke:var(--awaited);stroke-width:2}\
rect{height:4px;fill:var(--quiet)}\
rect.objects{height:12px;fill:var(--chain)}\
.frame{max-height:40rem;overflow:auto;border:1px solid var(--edge);border-radius:.25rem}\
table{width:100%;border-collapse:collapse;font-size:.9rem}\
caption{padding:.5rem .6rem;color:var(--quiet);text-align:left}\
caption span{position:sticky;left:.6rem;display:inline-block;max-width:min(66rem,100vw - 4rem)}\
th,td{padding:.3rem .6rem;border-top:1px solid var(--edge);text-align:left;vertical-align:top}\
thead th{position:sticky;top:0;background:var(--soft)}\
td,tbody th{unicode-bidi:isolate}\
td span{display:inline-block;min-width:3.5rem;padding:0 .5rem;border:1px solid;border-radius:1rem;\
font-size:.85rem;font-weight:600;text-align:center}\
#tests td:last-child{width:75%}\
#release td{white-space:nowrap}\
#release td:nth-child(4),#objects td:nth-child(2),#objects td:nth-child(3),#parked td,\
#release th:nth-child(4),#objects th:nth-child(2),#objects th:nth-child(3),#parked th:nth-child(2){\
text-align:right;font-variant-numeric:tabular-nums}\
#objects td:last-child{width:40%;min-width:8rem}\
#findings td,#receipts td{min-width:5rem;overflow-wrap:anywhere}\
#findings td:nth-child(2){min-width:9rem}\
#parked th{overflow-wrap:anywhere}\
footer{margin-top:2.5rem;color:var(--quiet);font-size:.85rem}\
@media print{body{max-width:none;padding:0}.frame{max-height:none;overflow:visible}\
thead th{position:static}tr,.picture{break-inside:avoid}h2,h3{break-after:avoid}}";
