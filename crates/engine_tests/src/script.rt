// Calls of an engine as values with their arguments, so that tables of cases are constants. A function pointer would have no
// arguments of its own.
use engine::engine::Engine;
use sheet::fault::Fault;
use sheet::row::Row;
use sheet::term::Term;

#[derive(Clone, Copy)]
pub(crate) enum Call {
    NoteTerm(Term),
    NoteRow(Row),
    Strike,
    Mute(u8),
    Unmute(u8),
    Place(u8),
    Lift,
    Renew,
}

// Makes the call.
pub(crate) fn make<E: Engine>(call: Call, engine: &mut E) -> Result<(), Fault> {
    match call {
        Call::NoteTerm(term) => engine.note_term(term),
        Call::NoteRow(row) => engine.note_row(row),
        Call::Strike => engine.strike(),
        Call::Mute(i) => engine.mute(i),
        Call::Unmute(i) => engine.unmute(i),
        Call::Place(code) => engine.place(code),
        Call::Lift => engine.lift(),
        Call::Renew => {
            engine.renew();
            Ok(())
        }
    }
}
