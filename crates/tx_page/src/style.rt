// What a page looks like.

/// The style sheet: the colours of both schemes, the pictures, and how a page is printed.
pub const STYLE: &str = "\
:root{color-scheme:light dark;--ink:#17212b;--soft:#566370;--line:#ccd5dd;--paper:#fbfcfd;--panel:#f1f4f7;--first:#1b5ea6;--second:#9a5f00;--later:#6f7c89;--bad:#c01f2a;--good:#13703f;--on:#fff}
@media(prefers-color-scheme:dark){:root{--ink:#e4ebf1;--soft:#a3b0bc;--line:#36434f;--paper:#11171d;--panel:#1a222a;--first:#74b4ff;--second:#efb255;--later:#8d9aa7;--bad:#ff7a80;--good:#5bd197;--on:#0b1015}}
body{margin:0;font:15px/1.5 system-ui,DejaVu Sans,sans-serif;color:var(--ink);background:var(--paper)}
main{max-width:68rem;margin:0 auto;padding:1.5rem 1rem 4rem}
h1{font-size:1.6rem;margin:0 0 .6rem;overflow-wrap:anywhere}
h2{font-size:1.15rem;margin:2.4rem 0 .6rem;padding-bottom:.2rem;border-bottom:1px solid var(--line)}
h3{display:inline;font-size:1rem;color:var(--ink)}
a{color:var(--first)}
.v{font-size:1.15rem;margin:.4rem 0 1rem}
.v strong{font-size:1.7rem;padding:.15rem .9rem;margin-right:.5rem;border-radius:.4rem;color:var(--on);background:var(--good);vertical-align:-.1em}
.no strong{background:var(--bad)}
.but strong{background:var(--second)}
.warn{color:var(--bad);font-weight:600}
.m{color:var(--soft)}
code{font:.85em/1.5 ui-monospace,DejaVu Sans Mono,monospace;overflow-wrap:anywhere}
dl{display:flex;flex-wrap:wrap;gap:.4rem 2rem;margin:1rem 0}
dt{color:var(--soft);font-size:.85rem}
dd{margin:0;font-size:1.2rem;font-variant-numeric:tabular-nums}
.t{display:flex;flex-wrap:wrap;gap:0 3rem;align-items:flex-start;overflow-x:auto}
table{border-collapse:collapse;font-variant-numeric:tabular-nums}
th,td{padding:.2rem 1.2rem .2rem 0;text-align:left;border-bottom:1px solid var(--line)}
thead th{color:var(--soft);font-size:.85rem}
.k{text-align:right}
details{margin:.4rem 0;padding:.35rem .8rem;border:1px solid var(--line);border-radius:.4rem;background:var(--panel)}
summary{cursor:pointer}
svg{display:block;max-width:100%;height:auto;margin:.6rem 0}
.key svg{display:inline;margin:0;vertical-align:-.05em}
.defs{position:absolute;margin:0}
svg text{font:11.5px system-ui,DejaVu Sans,sans-serif;text-anchor:middle;fill:var(--ink)}
svg .r,svg .l{fill:var(--soft)}
svg .l{text-anchor:start}
rect{fill:var(--paper);stroke:var(--later)}
.h rect{fill:var(--good);stroke:var(--good)}
svg .h text{fill:var(--on);font-weight:700}
.o rect{fill:none;stroke-dasharray:3 3}
svg .o text{fill:var(--soft)}
path{fill:none}
.a0{stroke:var(--first);stroke-width:2;marker-end:url(#m0)}
.a1{stroke:var(--second);stroke-width:1.4;marker-end:url(#m1)}
.a2{stroke:var(--later);stroke-width:1;stroke-dasharray:4 3;marker-end:url(#m2)}
.a3{stroke:var(--bad);stroke-width:3;marker-end:url(#m3)}
.n{stroke:var(--later)}
#m0 path{fill:var(--first)}#m1 path{fill:var(--second)}#m2 path{fill:var(--later)}#m3 path{fill:var(--bad)}
.f>li{margin:.8rem 0}
.w{list-style:none;display:flex;flex-wrap:wrap;gap:.8rem 0;margin:.5rem 0;padding:0}
.w li{display:grid;grid-template-columns:auto auto;align-items:start}
.w b{padding:.1rem .7rem;border:2px solid var(--bad);border-radius:.3rem;background:var(--paper)}
.w span{padding:.1rem .6rem;border-bottom:2px solid var(--bad);position:relative;white-space:nowrap}
.w span::after{content:'';position:absolute;right:0;bottom:-.42rem;border:.35rem solid transparent;border-left-color:var(--bad);border-right:0}
.w small{grid-column:1/3;color:var(--soft);max-width:14rem;padding:.2rem .6rem 0 0}
.c{columns:11rem;margin:.5rem 0;padding:0;list-style:none;color:var(--bad)}
.s{color:var(--second)}
.stage{margin-top:1.2rem}
.b table{display:none}
@media print{@page{size:A4;margin:12mm}body{font-size:10pt;background:none}main{padding:0;max-width:none}.t{display:block;overflow:visible}table+table{margin-top:1rem}tr,.f>li,.w li,.p{break-inside:avoid}thead{display:table-header-group}details{padding:0;border:0;background:none}details::details-content{content-visibility:visible;display:block}svg{max-height:250mm}.b svg{display:none}.b table{display:table}summary{list-style:none}h2,h3,summary{break-after:avoid}.stage,.stage+h2,.d~h2:first-of-type,.crews,.crew:not(:empty)~.crew:not(:empty){break-before:page}}
";
