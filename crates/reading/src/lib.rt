// The service Read: a text in, records and copied contents out.
#![tactic(auto)]

ghost use Rattle.std.specs.Prelude.{◌≡◌, length};
ghost use Rattle.reading.specs.Services.{read_answer, read_store, read_area, reading_report};
ghost use Rattle.reading.specs.declared.ReadError.TheVariants.{Refused};

use places::Report;
use refusals::Refusal;
use rules::Reading;

// How much of the store and of the area Read writes, or would.
#[derive(Clone, Copy)]
pub struct Lengths {
    pub store: usize,
    pub area: usize,
}

// Why Read writes nothing: the text is refused, or there is no room for what its records need.
#[derive(Clone, Copy)]
pub enum ReadError {
    Refused { refusal: Refusal },
    StoreFull { needed: Lengths },
    AreaFull { needed: Lengths },
}

impl From<Refusal> for ReadError {
    ghost from_gives = { λ refusal given. given ≡ Refused refusal };

    fn from(refusal: Refusal) -> ReadError {
        ReadError::Refused { refusal }
    }
}

// Read's answer in document 01's numbers.
pub fn report(answer: Result<Lengths, ReadError>) -> Report
    ensures { result ≡ reading_report answer }
{
    match answer {
        Ok(Lengths { store, area }) => Report::lengths(0, store, area),
        Err(error) => match error {
            ReadError::Refused { refusal } => refusal.report(),
            ReadError::StoreFull { needed } => Report::lengths(10, needed.store, needed.area),
            ReadError::AreaFull { needed } => Report::lengths(11, needed.store, needed.area),
        },
    }
}

// READ: 1, 2, in the strict reading 16 and 18, the first of the others, then 10, then 11; a refusal writes nothing.
pub fn read(
    reading: Reading,
    text: &[u8],
    store: &mut [u8],
    area: &mut [u8],
) -> Result<Lengths, ReadError>
    ensures answers { reading_report result ≡ read_answer reading text.now (length store.old) (length area.old) }
    ensures stored { store.new ≡ read_store reading text.now store.old (length area.old) }
    ensures copied { area.new ≡ read_area reading text.now (length store.old) area.old }
{
    let sizes = judging::judge(reading, text)?;
    let needed = Lengths {
        store: sizes.store,
        area: sizes.area,
    };
    if store.len() < needed.store {
        return Err(ReadError::StoreFull { needed });
    }
    if area.len() < needed.area {
        return Err(ReadError::AreaFull { needed });
    }
    writing::write_block(reading, text, true, store, area);
    Ok(needed)
}
