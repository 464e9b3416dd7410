//! Crowds whose kept records are known: the codes were computed apart, by another implementation of HMAC.

ghost use Rattle.std.specs.Prelude.{◌≡◌};
ghost use Rattle.esa_params.specs.declared.form.Form.TheVariants.{One};

use crate::Table;
use esa_hmac::Mac;
use esa_job::{Drops, DropsRefused};
use esa_params::Form;
use std::test::Fail;

/// Under the key of bytes 7 the code of the crowd of bytes 1 begins with the byte 51. The codes of the inner envelopes
/// of bytes 1 to 5 begin with 184, 128, 22, 175 and 218.
const PLACE: usize = 51;

/// An outer plain text: a crowd of one byte and an inner envelope of another.
fn text(crowd: u8, inner: u8) -> [u8; 136] {
    let mut text = [inner; 136];
    text[..32].fill(crowd);
    text
}

/// A table of drops: a digit at one place, and another at all other places.
fn drops(digit: u8, others: u8) -> Result<Drops, DropsRefused> {
    let mut file = [b'\n'; 512];
    for line in 0..256usize {
        file[line * 2] = others;
    }
    file[PLACE * 2] = digit;
    Drops::read(&file)
}

/// The marks of six positions.
fn marks(table: &Table) -> [bool; 6]
    requires { table.now.room ≡ 6 }
{
    let mut marks = [false; 6];
    for position in 0..6 {
        marks[position as usize] = table.is_kept(position);
    }
    marks
}

/// Looks at the inner envelopes of bytes 1, 2 and 3 of one crowd, at one that isn't real, and at those of bytes 4 and 5.
fn gather(table: &mut Table, codes: &Mac)
    requires form { table.old.form ≡ One }
    requires room { table.old.room ≡ 6 }
    ensures room { table.new.room ≡ 6 }
    ensures form { table.new.form ≡ One }
{
    table.begin();
    table.add(codes, &text(1, 1));
    table.add(codes, &text(1, 2));
    table.add(codes, &text(1, 3));
    table.pass();
    table.add(codes, &text(1, 4));
    table.add(codes, &text(1, 5));
}

/// Of five records of one crowd the two of the lowest tags are dropped: the other three are kept where three are enough,
/// and none where it takes four or where nine are dropped.
#[test]
fn drops_of_two(rt: HostRuntime) -> Result<(), Fail> {
    let codes = Mac::start(&[7; 32]);
    let mut table = Table::make(rt.alloc(), Form::One, 6)?;
    gather(&mut table, &codes);
    table.decide(&codes, &drops(b'2', b'9')?, 3);
    assert_eq!(rt; marks(&table), [true, false, false, false, true, true]);
    table.decide(&codes, &drops(b'2', b'0')?, 4);
    assert_eq!(rt; marks(&table), [false; 6]);
    table.decide(&codes, &drops(b'9', b'0')?, 1);
    assert_eq!(rt; marks(&table), [false; 6]);
    Ok(())
}

/// Equal envelopes count one by one, and the first of them by position are dropped. A crowd of one byte more is another.
#[test]
fn equal_envelopes(rt: HostRuntime) -> Result<(), Fail> {
    let codes = Mac::start(&[7; 32]);
    let mut table = Table::make(rt.alloc(), Form::One, 6)?;
    table.begin();
    table.decide(&codes, &drops(b'0', b'0')?, 1);
    assert_eq!(rt; marks(&table), [false; 6]);
    table.add(&codes, &text(1, 1));
    table.add(&codes, &text(2, 1));
    table.add(&codes, &text(1, 1));
    table.add(&codes, &text(1, 1));
    table.add(&codes, &text(1, 1));
    table.decide(&codes, &drops(b'2', b'0')?, 2);
    assert_eq!(rt; marks(&table), [false, false, false, true, true, false]);
    table.decide(&codes, &drops(b'0', b'0')?, 1);
    assert_eq!(rt; marks(&table), [true, true, true, true, true, false]);
    Ok(())
}
