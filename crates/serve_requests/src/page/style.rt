// The style of the page.

/// How the page looks: in light and dark, wide and narrow.
pub(crate) const STYLE: &str = ":root {
  color-scheme: light dark;
  --paper: #f6f7f9; --card: #ffffff; --ink: #1b2430; --soft: #5a6675; --line: #d5dbe3;
  --main: #1d5fbf; --mark: #8a4b08; --fill: #1d5fbf22; --bad: #a3161f; --bad-paper: #fdecec; --good: #1b7a3d;
}
@media (prefers-color-scheme: dark) {
  :root {
    --paper: #12161c; --card: #1b212a; --ink: #e8edf4; --soft: #9aa7b7; --line: #323c4a;
    --main: #6fa8ff; --mark: #e0a458; --fill: #6fa8ff22; --bad: #ff9a9a; --bad-paper: #3a1b1f; --good: #6fd394;
  }
}
* { box-sizing: border-box; }
body { margin: 0; background: var(--paper); color: var(--ink); font: 16px/1.45 system-ui, sans-serif; }
header, main { max-width: 66rem; margin: 0 auto; padding: 1rem; }
header { display: flex; flex-wrap: wrap; gap: .4rem 1rem; align-items: baseline; padding-bottom: 0; }
h1 { font-size: 1.35rem; margin: 0; }
h2 { font-size: 1.05rem; margin: 0 0 .7rem; }
main { display: grid; gap: 1rem; grid-template-columns: repeat(2, minmax(0, 1fr)); }
section { background: var(--card); border: 1px solid var(--line); border-radius: .5rem; padding: 1rem; }
#live, #wrong { grid-column: 1 / -1; }
#wrong { background: var(--bad-paper); border-color: var(--bad); }
#wrong h2 { color: var(--bad); }
#wrong ul { margin: 0; padding-left: 1.2rem; }
#state { color: var(--soft); }
#state::before { content: ''; display: inline-block; width: .65rem; height: .65rem; margin-right: .45rem;
  border-radius: 50%; background: var(--soft); }
#state.good::before { background: var(--good); }
#state.bad::before { background: var(--bad); }
dl { display: flex; flex-wrap: wrap; gap: .5rem 2.2rem; margin: 0 0 .8rem; }
dt { color: var(--soft); font-size: .85rem; }
dd { margin: 0; font-size: 1.5rem; font-variant-numeric: tabular-nums; }
dt.total::before, dt.mark::before { content: ''; display: inline-block; width: 1.1rem; margin-right: .4rem;
  vertical-align: .25rem; border-top: 3px solid var(--main); }
dt.mark::before { border-top: 3px dashed var(--mark); }
svg { display: block; width: 100%; height: 13rem; }
.axis { stroke: var(--line); } .grid { stroke: var(--line); stroke-dasharray: 2 4; }
.total-line { fill: none; stroke: var(--main); stroke-width: 2.5; vector-effect: non-scaling-stroke; }
.total-area { fill: var(--fill); }
.mark-line { fill: none; stroke: var(--mark); stroke-width: 2; stroke-dasharray: 6 4;
  vector-effect: non-scaling-stroke; }
.spans { display: flex; justify-content: space-between; color: var(--soft); font-size: .85rem; }
.wide { overflow-x: auto; }
table { border-collapse: collapse; width: 100%; }
th, td { text-align: right; padding: .3rem .5rem; border-bottom: 1px solid var(--line); white-space: nowrap;
  font-variant-numeric: tabular-nums; }
th { color: var(--soft); font-weight: 500; font-size: .85rem; }
td.bar { width: 40%; min-width: 6rem; text-align: left; }
td.bar div { height: .8rem; background: var(--main); border-radius: .15rem; min-width: 1px; }
form { display: flex; flex-wrap: wrap; gap: .5rem; align-items: center; margin-bottom: .8rem; }
input { width: 9rem; } input, button { font: inherit; padding: .3rem .6rem; color: inherit; background: var(--paper);
  border: 1px solid var(--soft); border-radius: .3rem; }
:focus-visible { outline: 3px solid var(--main); outline-offset: 2px; }
p { margin: 0 0 .6rem; } .soft { color: var(--soft); } [hidden] { display: none; }
@media (max-width: 48rem) {
  main { grid-template-columns: minmax(0, 1fr); padding: .6rem; } svg { height: 10rem; }
  dd { font-size: 1.2rem; } dl { gap: .4rem 1.2rem; } td.bar { width: 25%; min-width: 3rem; }
  #days th:nth-child(3), #days td:nth-child(3) { display: none; }
}
";
