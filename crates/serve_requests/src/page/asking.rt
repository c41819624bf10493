// The script of the page, up to what it shows.

/// How the page asks the server, and what it keeps of the answers.
pub(crate) const ASKING: &str = "const at = id => document.getElementById(id);
const told = { live: null, days: null, wrong: new Map(), samples: [], moved: 0, answered: 0, watched: [], listed: null };

const quote = String.fromCharCode(34);

// a number with a blank between groups of three digits
const digits = n => String(n).replace(/[0-9](?=([0-9]{3})+$)/g, '$& ');

// what an answer that is none of the good ones means
function meaning(status, path) {
  if (status === 403) return 'The server refuses this page, because it was opened under another name of the machine. '
    + 'Open it as http://127.0.0.1 with the port.';
  if (status === 404) return 'The server does not know ' + path + '. It may be of an older version than this page.';
  if (status === 500) return 'The server has no memory left for an answer.';
  if (status === 503) return 'The office cannot read its database tolls.db. '
    + 'Another program may have it open, or the file is damaged.';
  return 'The server answered ' + path + ' with status ' + status + '.';
}

// whether answers are what they are to be
const isNumber = n => /^[0-9]{1,40}$/.test(String(n));
const isLive = a => isNumber(a.as_of) && isNumber(a.day) && isNumber(a.total);
const isAccount = a => isNumber(a.as_of) && isNumber(a.balance);
const areDays = a => Array.isArray(a) && a.every(d => isNumber(d.day) && isNumber(d.total));

// an answer, where it is what it is to be; long numbers stay as they are written
function understood(text, fits) {
  try {
    const answer = JSON.parse(text.replace(/:([0-9]{16,})/g, ':' + quote + '$1' + quote));
    return answer && fits(answer) ? answer : null;
  } catch (error) {
    return null;
  }
}

// asks for a path; what went wrong is kept by its subject until an answer is good
async function ask(path, subject, fits) {
  try {
    const patience = AbortSignal.timeout(subject === 'days' ? 60000 : 5000);
    const answer = await fetch(path, { cache: 'no-store', signal: patience });
    const text = await answer.text();
    told.answered = Date.now();
    told.wrong.delete('server');
    const read = answer.status === 200 ? understood(text, fits) : null;
    if (read) told.wrong.delete(subject);
    else told.wrong.set(subject, answer.status === 200
      ? 'The server answered ' + path + ' with something else than was asked. Another program may have its port.'
      : meaning(answer.status, path));
    return read;
  } catch (error) {
    if (subject !== 'days') told.wrong.set('server', 'The server does not answer. '
      + (told.answered ? 'Its last answer came at ' + new Date(told.answered).toLocaleTimeString() + '. ' : '')
      + 'Is toll_serve running? What you see below is what it said last.');
    return null;
  }
}

// keeps what the live board showed, for the curve; a new day begins a new one
function take(live) {
  const now = Date.now();
  const last = told.live;
  if (!last || last.day !== live.day || Number(live.as_of) < Number(last.as_of)) {
    told.samples = [];
    told.moved = now;
  } else if (last.as_of !== live.as_of) {
    told.moved = now;
  }
  told.live = live;
  told.samples.push({ time: now, mark: Number(live.as_of), total: Number(live.total) });
  if (told.samples.length > 1200) told.samples = told.samples.filter((s, i) => i % 2 === 0 || i > 1190);
}

// what is known of the day that the board shows: it is kept, it goes on, or it stands still, which has several causes
function course() {
  const live = told.live;
  if (told.days && told.days.some(d => Number(d.day) === Number(live.day))) {
    return 'Day ' + live.day + ' is kept.';
  }
  if (Date.now() - told.moved <= 10000) return 'Day ' + live.day + ' is going on, and is not kept as yet.';
  return 'Day ' + live.day + ' has stood still since ' + new Date(told.moved).toLocaleTimeString()
    + ' and is not kept: it waits for its next lines, is being stored, was refused, or was given up. '
    + 'The answer to its POST says which. Do not bill by it.';
}

// asks for the kept days, of which there may be many: one question at a time, and nothing waits for it
let asking = false;
async function askDays() {
  if (asking) return;
  asking = true;
  try {
    told.days = await ask('days', 'days', areDays) || told.days;
    show();
  } finally {
    asking = false;
  }
}

let turn = 0;
async function look() {
  const live = await ask('live', 'live', isLive);
  if (live) take(live);
  await Promise.all(told.watched.map(async account => {
    account.shown = await ask('live/' + account.vid, 'account', isAccount) || account.shown;
  }));
  if (live && turn % 5 === 0) askDays().catch(stumble);
  turn = live ? turn + 1 : 0;
  show();
}

// an answer that cannot be shown is told, and the watch goes on
function stumble(error) {
  told.wrong.set('page', 'This page could not show an answer: ' + error.message);
}

async function watch() {
  try {
    await look();
    told.wrong.delete('page');
  } catch (error) {
    stumble(error);
  } finally {
    setTimeout(watch, 1000);
  }
}
";
