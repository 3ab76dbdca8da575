//! How the page looks: in light and dark, and in print.

/// The rules of the page's style.
pub(super) const STYLE: &str = "\n\
:root{color-scheme:light dark;--ink:#1b1f24;--paper:#fff;--faint:#eceff3;--line:#d5dae1;\
--l1:#bfdbf7;--l2:#7fb2e5;--l3:#3f83c4;--l4:#124c86;--on:#fff;--grey:#8a919a}\n\
@media(prefers-color-scheme:dark){:root{--ink:#e4e8ee;--paper:#12161c;--faint:#232a33;\
--line:#39424e;--l1:#153a5c;--l2:#1f5f98;--l3:#3f8fd4;--l4:#9fd0ff;--on:#0b1118}}\n\
body{font:15px/1.4 system-ui,sans-serif;color:var(--ink);background:var(--paper);\
max-width:62rem;margin:1.5rem auto;padding:0 1rem}\n\
h1{font-size:1.5rem;margin:0}h2{font-size:1.1rem;margin:1.6rem 0 .5rem}p{margin:.3rem 0}\n\
.map{width:100%;height:auto;display:block}.map text{fill:var(--ink);font-size:9px}\n\
.l0{fill:var(--faint)}.l1{fill:var(--l1)}.l2{fill:var(--l2)}.l3{fill:var(--l3)}\n\
.l4{fill:var(--l4)}\n\
.b0{background:var(--faint)}.b1{background:var(--l1)}.b2{background:var(--l2)}\
.b3{background:var(--l3);color:var(--on)}.b4{background:var(--l4);color:var(--on)}\n\
.scale{font-size:.85rem}.scale span{display:inline-block;width:.8rem;height:.8rem;\
margin:0 .1rem;vertical-align:-.1rem;border-radius:2px}\n\
table{border-collapse:collapse}th{font-weight:600;text-align:left}\n\
.wide{overflow-x:auto}.hours{font-size:.75rem;font-variant-numeric:tabular-nums}\
.hours th,.hours td{text-align:right;padding:.25rem .3rem;border:1px solid var(--paper)}\n\
.entries{width:100%;margin-top:1rem}.entries td,.entries th{padding:.2rem .5rem .2rem 0;\
border-bottom:1px solid var(--line)}.entries .when{width:45%}\n\
.entries code{overflow-wrap:anywhere}\n\
.number,.days td{text-align:right;font-variant-numeric:tabular-nums}\n\
.entries svg{width:100%;height:.8rem;display:block;background:var(--faint);fill:var(--own)}\n\
.swatch{display:inline-block;width:.9rem;height:.9rem;border-radius:3px;background:var(--own)}\n\
.e0{--own:#3b76c4}.e1{--own:#e0663a}.e2{--own:#2f9e5b}.e3{--own:#c79a16}.e4{--own:#8a5bd1}\
.e5{--own:#d1437f}.e6{--own:#1f9bb0}.e7{--own:#8f6a3f}.e8{--own:#7aa51e}.e9{--own:#d97bb6}\
.e10{--own:#5b67e0}.e11{--own:#b8483d}.e12{--own:var(--grey)}\n\
.month{width:100%;margin-top:1rem;font-size:.85rem}.month td{width:14%;vertical-align:top;\
border:1px solid var(--line);padding:.2rem .3rem}.month code{overflow-wrap:anywhere}\n\
details{margin-top:1.6rem}summary{cursor:pointer}.days th,.days td{padding:.1rem 1rem .1rem 0}\n\
pre{white-space:pre-wrap;font-size:.85rem}\n\
@media print{:root{--ink:#000;--paper:#fff;--faint:#eee;--line:#bbb}\
body{max-width:none;margin:0;print-color-adjust:exact;-webkit-print-color-adjust:exact}\
h2,svg,tr{break-inside:avoid}details{display:none}.wide{overflow:visible}.hours{font-size:.6rem}}\n";
