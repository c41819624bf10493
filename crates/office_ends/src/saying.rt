// A line that says why a run failed.
ghost use Rattle.std.specs.Prelude.{◌≡◌};
ghost use Rattle.std.specs.Fn.{FnReturnsAt};
ghost use Rattle.office_ends.specs.Says.{Said, SaysCause, SaysWhy, unread_line, unroomed_line};

use road_io::{Sink, put_all};

/// Says a line. Where there is no room for it, nobody is told.
fn say<E: Sink>(line: &[u8], err: &mut E)
    ensures { Said (E.room err.old) (E.written err.old) (E.written err.new) line.now }
{
    let _ = put_all(err, line);
}

/// Says that a source or an aside failed.
fn say_unread<E: Sink>(err: &mut E)
    ensures { Said (E.room err.old) (E.written err.old) (E.written err.new) unread_line }
{
    say(
        b"toll_office: standard input or notices.txt cannot be read\n",
        err,
    );
}

/// Says that memory ran out.
fn say_unroomed<E: Sink>(err: &mut E)
    ensures { Said (E.room err.old) (E.written err.old) (E.written err.new) unroomed_line }
{
    say(b"toll_office: memory ran out\n", err);
}

/// Says the line that a keeper's cause has, if there is one.
fn say_unkept<K, E: Sink, F: Fn(&K) -> Option<String>>(keeper: &K, why: &F, err: &mut E)
    requires { F.IsAlwaysCallable why.now }
    ensures { (cause : _) × FnReturnsAt F.Fn why.now keeper.now cause
        × SaysCause cause (Said (E.room err.old) (E.written err.old) (E.written err.new)) (err.new ≡ err.old) }
{
    match why(keeper) {
        Some(line) => say(line.as_bytes(), err),
        None => {}
    }
}

/// Says why a run with this status failed, if it did.
pub fn say_why<K, E: Sink, F: Fn(&K) -> Option<String>>(
    status: u8,
    keeper: &K,
    why: &F,
    err: &mut E,
)
    requires { F.IsAlwaysCallable why.now }
    ensures { SaysWhy status (FnReturnsAt F.Fn why.now keeper.now)
        (Said (E.room err.old) (E.written err.old) (E.written err.new)) (err.new ≡ err.old) }
{
    if status == 4 {
        say_unread(err);
        return;
    }
    if status == 6 {
        say_unkept(keeper, why, err);
        return;
    }
    if status == 8 {
        say_unroomed(err);
    }
}
