//! A command that changes a register, and what that brought.

ghost use Rattle.std.specs.Prelude.{OnOk, IfErr};
ghost use Rattle.reg_engine.specs.Store.{IsChanged, IsUnchanged, MakesIn, StopsIn};
ghost use Rattle.reg_news.specs.Watching.{telling};

use crate::News;
use crate::watch::watched::{Notes, Watched};
use byte_io::Sink;
use reg_engine::{Change, CliFault, Keep, run_change};
use std::alloc::{AllocError, Global};

/// How a command ended, and what the register that it kept has and the one that it loaded has not, unless memory ran out for that;
/// nothing if it kept none.
#[derive(Drop)]
pub struct Told {
    pub answer: Result<(), CliFault>,
    pub news: Result<Option<News>, AllocError>,
}

/// Runs a command that changes a register, as `run_change` does, and finds out what it brought.
pub fn change_and_tell<T: Keep, C: Change, K: Sink>(
    alloc: Global,
    store: &mut T,
    command: &mut C,
    sink: &mut K,
) -> Told
    ensures same { T.same store.old store.new × C.same command.old command.new }
    ensures changed { OnOk result.answer (IsChanged (telling (T.around store.old store.new) result.news)
        (MakesIn (T.admission store.old) (C.makes command.old command.new (T.next store.old))) (K.state sink.old) (K.state sink.new)) }
    ensures fault { IfErr result.answer (IsUnchanged (telling (T.around store.old store.new) result.news)
        (MakesIn (T.admission store.old) (C.makes command.old command.new (T.next store.old)))
        (StopsIn (T.admission store.old) (C.unmet command.old command.new (T.next store.old))
        (λ x. (r : C.Read) × C.reads command.old command.new (T.next store.old) x r) (C.refuses command.old command.new (T.next store.old)))
        (C.unread command.old command.new) (K.state sink.old) (K.state sink.new)) }
{
    let mut notes = Notes::none();
    let answer = run_change(
        alloc,
        &mut Watched {
            store,
            notes: &mut notes,
        },
        command,
        sink,
    );
    let news = notes.news(alloc);
    Told { answer, news }
}
