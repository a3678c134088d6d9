//! The style of a page.

/// The style sheet, for screens, light and dark, and for paper. No character of it needs an entity.
///
/// `--w` of a bar is its width, in thousandths of the widest of its column.
pub const STYLE: &str = r#"
:root { color-scheme: light dark; --ink: #1c2126; --dim: #5f6973; --rule: #dde2e7; --ground: #ffffff; --head: #f2f5f8; --zero: #98a3ae; --bar: #cbe0f6; --negative: #f9cfc2; --new: #e3f4e6; --new-edge: #2f8f46; --changed: #fdf2d0; --changed-edge: #b9790a }
@media (prefers-color-scheme: dark) {
  :root { --ink: #e3e7eb; --dim: #9aa5b0; --rule: #353d45; --ground: #15191d; --head: #20272e; --zero: #5a6570; --bar: #22486e; --negative: #743423; --new: #173020; --new-edge: #4fb76a; --changed: #352b12; --changed-edge: #d6a13a }
}
html { background: var(--ground); color: var(--ink); font: 1rem/1.4 system-ui, sans-serif; -webkit-text-size-adjust: 100% }
body { margin: 0 auto; padding: 1rem; max-width: 80rem }
header { display: flex; flex-wrap: wrap; gap: 0 1rem; align-items: baseline; border-bottom: 2px solid var(--ink) }
h1 { margin: 0; font-size: 1.5rem; overflow-wrap: anywhere }
h2 { margin: 2rem 0 0; font-size: 1.15rem; overflow-wrap: anywhere }
p { margin: 0.1rem 0 0.5rem; color: var(--dim); font-variant-numeric: tabular-nums }
.table { width: fit-content; max-width: 100%; max-height: 85vh; overflow: auto; border: 1px solid var(--rule); border-radius: 3px }
html:has(meta[http-equiv=refresh]) .table { max-height: none }
table { width: max-content; border-collapse: separate; border-spacing: 0; font-variant-numeric: tabular-nums }
caption { width: 1px; height: 1px; margin: -1px; overflow: hidden; clip-path: inset(50%); white-space: nowrap }
th, td { padding: 0.2rem 0.7rem; text-align: left; vertical-align: top; white-space: pre-wrap }
bdi { display: inline-block; max-width: 36rem; overflow-wrap: anywhere }
td { border-top: 1px solid var(--rule) }
tr:first-child td { border-top: 0 }
.new td { background-color: var(--new) }
.changed td { background-color: var(--changed) }
.new td:first-child { box-shadow: inset 3px 0 var(--new-edge) }
.changed td:first-child { box-shadow: inset 3px 0 var(--changed-edge) }
th { position: sticky; top: 0; z-index: 1; background: var(--head); border-bottom: 1px solid var(--dim); vertical-align: bottom }
.number, .mean, .bar { text-align: right; white-space: nowrap }
.bar { min-width: 6rem; background-repeat: no-repeat; background-position: 50% 50%; background-size: calc(100% - 0.4rem) calc(100% - 4px) }
.bar { background-image: linear-gradient(to right, var(--bar) calc(var(--w) * 0.1%), transparent 0) }
.positive { background-image: linear-gradient(to right, transparent calc(50% - 0.5px), var(--zero) 0, var(--zero) calc(50% + 0.5px), transparent 0), linear-gradient(to right, transparent 50%, var(--bar) 0, var(--bar) calc(50% + var(--w) * 0.05%), transparent 0) }
.negative { background-image: linear-gradient(to right, transparent calc(50% - 0.5px), var(--zero) 0, var(--zero) calc(50% + 0.5px), transparent 0), linear-gradient(to left, transparent 50%, var(--negative) 0, var(--negative) calc(50% + var(--w) * 0.05%), transparent 0) }
.null { color: var(--dim); font-style: italic }
.mean { color: var(--dim) }
.decimal { color: var(--ink) }
@media (max-width: 40rem) {
  html { font-size: 0.9rem }
  body { padding: 0.6rem }
  th, td { padding: 0.2rem 0.5rem }
  bdi { max-width: 70vw }
}
@media print {
  .table { max-height: none; overflow: visible; border: 0 }
  th { position: static }
  tr { break-inside: avoid }
  .bar { print-color-adjust: exact; -webkit-print-color-adjust: exact }
}
"#;
