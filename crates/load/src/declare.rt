// The terms that a sheet begins with.
ghost use Rattle.std.specs.Prelude.{◌≡◌, true, MatchResult};
ghost use Rattle.bench.specs.Benches.{declared};
ghost use Rattle.load.specs.TermFields.{TermDeclared, TermRefused, TermsDeclared, TermsStopped, begins_term};

use bench::draft::Draft;
use sheet::fault::Fault;
use sheet::field::Field;
use sheet::reader::read_field;
use sheet::refusal::Refusal;

// Declares the term fields that the input begins with, up to the first byte that begins none, and answers the bytes from there on.
// The first fault ends it.
pub fn declare_terms<'a>(draft: &mut Draft, input: &'a [u8]) -> Result<&'a [u8], Refusal>
    ensures { MatchResult result
        (λ rest. TermsDeclared input.now (declared draft.old) rest.now (declared draft.new))
        (λ refusal. TermsStopped input.now (declared draft.old) (declared draft.new) refusal) }
{
    let mut rest = input;
    while rest.starts_with(b"T") {
        match declare_term(draft, rest) {
            Ok(after) => rest = after,
            Err(fault) => {
                let place = input.len() - rest.len();
                return Err(Refusal { fault, place });
            }
        }
    }
    Ok(rest)
}

// Declares the term whose field the input begins with, and answers the bytes behind it.
fn declare_term<'a>(draft: &mut Draft, input: &'a [u8]) -> Result<&'a [u8], Fault>
    requires { begins_term input.now ≡ true }
    ensures { MatchResult result
        (λ rest. TermDeclared input.now (declared draft.old) rest.now (declared draft.new))
        (λ fault. (declared draft.new ≡ declared draft.old) × TermRefused input.now (declared draft.old) fault) }
{
    match read_field(input) {
        (Ok(Field::Term { term, .. }), rest) => match draft.declare(term) {
            Ok(()) => Ok(rest),
            Err(fault) => Err(fault),
        },
        // A row's field has another tag, so this does not come about.
        (Ok(Field::Row(_)), rest) => Ok(rest),
        (Err(fault), _) => Err(fault),
    }
}
