// The script of the page, where it shows something.

/// How the page shows what it keeps.
pub(crate) const SHOWING: &str = "// sets a text where it is another, so that a reader of
// the screen speaks of what changed alone
function say(id, text) {
  if (at(id).textContent !== text) at(id).textContent = text;
}

// the greatest of some numbers, and of 1
const greatest = numbers => numbers.reduce((most, n) => Math.max(most, n), 1);

// one row of a table
function row(cells) {
  const line = document.createElement('tr');
  for (const cell of cells) {
    const place = document.createElement('td');
    if (typeof cell === 'object') place.append(cell); else place.textContent = cell;
    line.append(place);
  }
  return line;
}

function showCurve() {
  const samples = told.samples;
  const from = samples[0].time;
  const to = samples[samples.length - 1].time;
  const most = greatest(samples.map(s => s.total));
  const far = greatest(samples.map(s => s.mark));
  const x = s => to > from ? 600 * (s.time - from) / (to - from) : 600;
  const points = value => samples.map(s => x(s).toFixed(1) + ',' + (198 - 190 * value(s)).toFixed(1)).join(' ');
  at('total-line').setAttribute('points', points(s => s.total / most));
  at('mark-line').setAttribute('points', points(s => s.mark / far));
  at('area').setAttribute('points', '0,199 ' + points(s => s.total / most) + ' 600,199');
  at('span-from').textContent = new Date(from).toLocaleTimeString();
  at('span-to').textContent = new Date(to).toLocaleTimeString();
  const last = told.live;
  at('span-text').textContent = 'up to a total of ' + digits(last.total) + ' and tuple ' + digits(last.as_of);
}

function showLive() {
  const live = told.live;
  const going = Boolean(live && live.day > 0);
  at('empty').hidden = going || !live;
  at('going').hidden = !going;
  if (!going) return;
  at('day').textContent = live.day;
  at('mark').textContent = digits(live.as_of);
  at('total').textContent = digits(live.total);
  const recent = told.samples.slice(-6);
  const first = recent[0];
  const last = recent[recent.length - 1];
  const pace = last.time > first.time ? 1000 * (last.mark - first.mark) / (last.time - first.time) : 0;
  at('pace').textContent = pace >= 0.5 ? digits(Math.round(pace)) : 'stands';
  say('course', course());
  showCurve();
}

function showAccounts() {
  at('accounts').hidden = told.watched.length === 0;
  const rows = at('account-rows');
  const held = rows.contains(document.activeElement) ? document.activeElement.dataset.vid : null;
  rows.replaceChildren(...told.watched.map(account => {
    const stop = document.createElement('button');
    stop.type = 'button';
    stop.textContent = 'Stop';
    stop.dataset.vid = account.vid;
    stop.setAttribute('aria-label', 'Stop watching vehicle ' + account.vid);
    stop.onclick = () => {
      told.watched = told.watched.filter(other => other !== account);
      showAccounts();
      at('vid').focus();
    };
    const shown = account.shown;
    return row([account.vid, shown ? digits(shown.balance) : '..', shown ? digits(shown.as_of) : '..', stop]);
  }));
  if (held) for (const stop of rows.querySelectorAll('button')) if (stop.dataset.vid === held) stop.focus();
}

function showDays() {
  const days = told.days;
  at('no-days').hidden = !days || days.length > 0;
  at('days').hidden = !days || days.length === 0;
  if (!days || days === told.listed) return;
  told.listed = days;
  const most = greatest(days.map(d => Number(d.total)));
  at('day-rows').replaceChildren(...days.slice().reverse().map(d => {
    const bar = document.createElement('div');
    bar.style.width = 100 * Number(d.total) / most + '%';
    const line = row([d.day, digits(d.tuples), digits(d.notices), digits(d.total), bar]);
    line.lastChild.className = 'bar';
    return line;
  }));
}

function show() {
  const lost = told.wrong.has('server');
  at('state').className = lost ? 'bad' : told.answered ? 'good' : '';
  say('state', lost ? 'no answer' : told.answered ? 'answers' : 'asks the server');
  at('answered').textContent = told.answered ? 'last at ' + new Date(told.answered).toLocaleTimeString() : '';
  const problems = [...told.wrong.values()];
  at('wrong').hidden = problems.length === 0;
  if (at('problems').dataset.text !== problems.join()) {
    at('problems').dataset.text = problems.join();
    at('problems').replaceChildren(...problems.map(text => {
      const item = document.createElement('li');
      item.textContent = text;
      return item;
    }));
  }
  showLive();
  showAccounts();
  showDays();
}

at('add').onsubmit = event => {
  event.preventDefault();
  const text = at('vid').value.trim();
  const good = /^[0-9]{1,10}$/.test(text) && Number(text) <= 2147483647;
  at('vid-help').textContent = good ? 'Vehicle ' + Number(text) + ' is watched.'
    : 'That is no vehicle: a number from 0 to 2147483647.';
  if (!good) return;
  const vid = String(Number(text));
  if (!told.watched.some(account => account.vid === vid)) told.watched.push({ vid, shown: null });
  at('vid').value = '';
  showAccounts();
};
";
