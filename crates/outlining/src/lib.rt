// The service Outline: a text in, kinds and places out.
#![tactic(auto)]

ghost use Rattle.std.specs.Prelude.{◌≡◌, length};
ghost use Rattle.outlining.specs.Outlining.{outline_answer, outline_store, outlined_report};
ghost use Rattle.outlining.specs.declared.OutlineError.TheVariants.{Refused};

use places::Report;
use refusals::Refusal;
use rules::Reading;

// Why Outline writes nothing: the text is refused, or there is no room for as many bytes as its outline has.
#[derive(Clone, Copy)]
pub enum OutlineError {
    Refused { refusal: Refusal },
    NoRoom { store: usize },
}

impl From<Refusal> for OutlineError {
    ghost from_gives = { λ refusal given. given ≡ Refused refusal };

    fn from(refusal: Refusal) -> OutlineError {
        OutlineError::Refused { refusal }
    }
}

// Outline's answer in document 01's numbers.
pub fn report(answer: Result<usize, OutlineError>) -> Report
    ensures { result ≡ outlined_report answer }
{
    match answer {
        Ok(store) => Report::lengths(0, store, 0),
        Err(error) => match error {
            OutlineError::Refused { refusal } => refusal.report(),
            OutlineError::NoRoom { store } => Report::lengths(10, store, 0),
        },
    }
}

// OUTLINE: the same without 11; kinds and places only. The outline has no area.
pub fn outline(reading: Reading, text: &[u8], store: &mut [u8]) -> Result<usize, OutlineError>
    ensures answers { outlined_report result ≡ outline_answer reading text.now (length store.old) }
    ensures writes { store.new ≡ outline_store reading text.now store.old }
{
    let room = judging::judge(reading, text)?.outline;
    if store.len() < room {
        return Err(OutlineError::NoRoom { store: room });
    }
    let mut area = [0u8; 1];
    writing::write_block(reading, text, false, store, &mut area);
    Ok(room)
}
