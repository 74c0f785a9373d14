// Items: a tag and its value, or a loop of names and values; what they fail by, or how much room their records take.
#![tactic(auto)]

ghost use Rattle.std.specs.Prelude.{◌≡◌, true, ◌+◌, ◌*◌, ◌≤◌, ◌<◌, length};
ghost use Rattle.sizes.specs.Sizes.{Upto};
ghost use Rattle.text.specs.Limits.{limit};
ghost use Rattle.items.specs.Answers.{Ready, Here, names_at, values_at, failed_as, rows_of, item_at};
ghost use Rattle.grammar.specs.Machine.{lacks_values as lacks_some};
ghost use Rattle.grammar.specs.Tokens.{tag_at, loop_at};

use found::{Found, Why};
use grammar::{Cause, Fault};
use kinds::Kind;
use rules::Reading;
use sizes::Sizes;

// What an item is: read, with the offset behind it and the space and comments there, a loop with why its list of values
// ended; failed by 5 or 6 in the first reading, with the offset where it stopped; or absent, where none starts.
#[derive(Clone, Copy)]
pub enum Item {
    Loop { next: usize, sizes: Sizes, why: Why },
    Single { next: usize, sizes: Sizes },
    Failed { fault: Fault, stop: usize },
    Absent { at: usize },
}

// The names of a loop: how many, the offset behind them and the space and comments there, and that of the last.
#[derive(Clone, Copy)]
struct Names {
    count: usize,
    next: usize,
    sizes: Sizes,
    last: usize,
}

// The values of a loop, and why the list ended.
#[derive(Clone, Copy)]
struct Values {
    count: usize,
    next: usize,
    sizes: Sizes,
    why: Why,
}

// The names of a loop, from behind its `loop_` on, as far as they may stand. The loops here walk by an offset, as only a token that
// is read tells where the next one stands: an iterator of them would hold the same offset, and be no plainer.
fn count_names(reading: Reading, s: &[u8], from: usize) -> Names
    requires { Ready s.now from }
    ensures { result ≡ names_at reading s.now from }
{
    let mut at = gaps::gap_end(s, from);
    let mut count: usize = 0;
    let mut sizes = Sizes::default();
    let mut last: usize = 0;
    loop {
        let end = openings::name_end(reading, s, at);
        if end <= at {
            return Names {
                count,
                next: at,
                sizes,
                last,
            };
        }
        sizes = sizes.with(Kind::LOOP_TAG, end - at);
        count += 1;
        last = at;
        at = gaps::gap_end(s, end);
    }
}

// The values of a loop, until one fails.
fn count_values(reading: Reading, s: &[u8], from: usize) -> Result<Values, Fault>
    requires { Here s.now from }
    ensures { result ≡ values_at reading s.now from }
{
    let mut at = from;
    let mut count: usize = 0;
    let mut sizes = Sizes::default();
    loop {
        let found = Found::of(values::pack_value(reading, s, at));
        let Found::Value { kind, size } = found else {
            let Found::Missing { why } = found else {
                return Err(Cause::OverLimit.at(at));
            };
            return Ok(Values {
                count,
                next: at,
                sizes,
                why,
            });
        };
        sizes = sizes.with(kind, size);
        count += 1;
        at = gaps::gap_end(s, at + size);
    }
}

// An item that fails by 5 or 6, and stops where it does: in the first reading a frame may drop it; in the strict one that
// ends the reading, and where no space parts what stands there it is 15 first.
fn failed(reading: Reading, fault: Fault, stop: usize, why: Why) -> Result<Item, Fault>
    ensures { result ≡ failed_as reading fault stop why }
{
    match reading {
        Reading::First => Ok(Item::Failed { fault, stop }),
        Reading::Strict => match why {
            Why::Joined => Err(Cause::NotParted.at(stop)),
            _ => Err(fault),
        },
    }
}

// Whether a loop of so many values has none, where the reading asks for some.
fn lacks_values(reading: Reading, count: usize) -> bool
    ensures { result ≡ lacks_some reading count }
{
    match reading {
        Reading::First => false,
        Reading::Strict => count == 0,
    }
}

// A loop whose names and values are counted: whole rows, or a remainder.
fn rows(reading: Reading, at: usize, names: Names, values: Values) -> Result<Item, Fault>
    requires { (0 < names.count) × Upto limit names.sizes × Upto limit values.sizes }
    ensures { result ≡ rows_of reading at names values }
{
    let why = values.why;
    if lacks_values(reading, values.count) {
        let reason = why.number();
        return Err(Cause::NoValue { reason }.at(names.last));
    }
    let remainder = values.count % names.count;
    if remainder != 0 {
        return failed(
            reading,
            Cause::Ragged { remainder }.at(at),
            values.next,
            why,
        );
    }
    let heading = Sizes::default().with(Kind::LOOP, 5);
    Ok(Item::Loop {
        next: values.next,
        sizes: (heading + names.sizes + values.sizes).with(Kind::LOOP_END, 0),
        why,
    })
}

// The loop whose `loop_` stands at an offset. Behind its names a tag stands only where its name may not.
fn parse_loop(reading: Reading, s: &[u8], at: usize) -> Result<Item, Fault>
    requires { Here s.now at × (loop_at reading s.now at ≡ true) }
    ensures { result ≡ item_at reading s.now at }
{
    let names = count_names(reading, s, at + 5);
    let next = names.next;
    if openings::at_tag(reading, s, next) {
        return Err(Cause::BadName.at(next));
    }
    let nameless = names.count == 0;
    if nameless {
        return Err(Cause::NoNames.at(at));
    }
    let values = count_values(reading, s, next)?;
    rows(reading, at, names, values)
}

// The tag at an offset, and its value.
fn parse_tag(reading: Reading, s: &[u8], at: usize) -> Result<Item, Fault>
    requires { Here s.now at × (tag_at reading s.now at ≡ true) }
    ensures { result ≡ item_at reading s.now at }
{
    let end = words::long_word_end(s, at);
    if !words::tag_fits(reading, end - at) {
        return Err(Cause::BadName.at(at));
    }
    let stop = gaps::gap_end(s, end);
    let found = Found::of(values::pack_value(reading, s, stop));
    if let Found::Value { kind, size } = found {
        return Ok(Item::Single {
            next: gaps::gap_end(s, stop + size),
            sizes: Sizes::default().with(Kind::TAG, end - at).with(kind, size),
        });
    }
    let Found::Missing { why } = found else {
        return Err(Cause::OverLimit.at(stop));
    };
    let reason = why.number();
    failed(reading, Cause::NoValue { reason }.at(at), stop, why)
}

// The item at an offset where no space or comment stands, or what ends the whole reading there; most are tags.
pub fn parse_data_item(reading: Reading, s: &[u8], at: usize) -> Result<Item, Fault>
    requires { Here s.now at }
    ensures { result ≡ item_at reading s.now at }
{
    if openings::at_tag(reading, s, at) {
        return parse_tag(reading, s, at);
    }
    if openings::at_loop(reading, s, at) {
        return parse_loop(reading, s, at);
    }
    Ok(Item::Absent { at })
}
