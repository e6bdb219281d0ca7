//! Writing certificates.
ghost use Rattle.std.specs.Prelude.{◌≡◌, ◌++◌, ◌∷◌, ◌<◌, All, OnErr, OnOk, map};
ghost use Rattle.std.specs.List.{flat_map};
ghost use Rattle.std.specs.Fmt.{signed_decimal};
ghost use Rattle.call_sets.specs.Counting.{members};
ghost use Rattle.elevator_model.specs.Snapshot.{spec_of};
ghost use Rattle.lift_text.specs.Text.{word};
ghost use Rattle.text_sections.specs.Canonical.{line_text, lines_text};
ghost use Rattle.cert_text.specs.Trees.{IsKnownSplit, IsKnownPrice, IsKnownWorth, IsKnownLeaf, IsKnownTwig};
ghost use Rattle.cert_text.specs.Trees.{AreTwigsKnown};
ghost use Rattle.cert_text.specs.Texts.{split_words, price_words, worth_words, leaf_words, item_lines};
ghost use Rattle.cert_text.specs.Texts.{twig_lines, cert_text, BeginsWith};

use call_sets::CarSet;
use call_state::Snapshot;
use lift_text::{put_line, put_number, put_word, put_words};
use search_model::{Leaf, PriceOf, Twig, WorthOf};
use snapshot_text::{id_of_call, id_of_car};
use std::alloc::AllocError;

/// Writes a space and a number.
fn put_signed(out: &mut Vec<u8>, value: i128) -> Result<(), AllocError>
    ensures text { OnOk result (out.new.items ≡ out.old.items ++ 32 ∷ signed_decimal value) }
    ensures kept { OnErr result (BeginsWith out.new.items out.old.items) }
{
    out.push(b' ')?;
    put_number(out, value)
}

/// Writes the ids of the cars of a set, by rising index of the cars.
fn put_cars(out: &mut Vec<u8>, snapshot: &Snapshot, part: CarSet) -> Result<(), AllocError>
    ensures text { OnOk result (out.new.items
        ≡ out.old.items ++ flat_map (λ c. word (spec_of snapshot.now c).id) (members 16 part)) }
    ensures kept { OnErr result (BeginsWith out.new.items out.old.items) }
{
    for c in part.iter() {
        put_word(out, id_of_car(snapshot, c))?;
    }
    Ok(())
}

fn put_split(
    out: &mut Vec<u8>,
    snapshot: &Snapshot,
    call: u32,
    part: CarSet,
) -> Result<(), AllocError>
    requires { IsKnownSplit snapshot.now call part }
    ensures text { OnOk result (out.new.items ≡ out.old.items ++ line_text (split_words snapshot.now call part)) }
    ensures kept { OnErr result (BeginsWith out.new.items out.old.items) }
{
    let id = id_of_call(snapshot, call);
    put_words(out, b"split", &[id])?;
    put_cars(out, snapshot, part)?;
    out.push(b'\n')?;
    Ok(())
}

fn put_price(out: &mut Vec<u8>, snapshot: &Snapshot, price: &PriceOf) -> Result<(), AllocError>
    requires { IsKnownPrice snapshot.now price.now }
    ensures text { OnOk result (out.new.items ≡ out.old.items ++ line_text (price_words snapshot.now price.now)) }
    ensures kept { OnErr result (BeginsWith out.new.items out.old.items) }
{
    let id = id_of_call(snapshot, price.call);
    put_words(out, b"price", &[id])?;
    put_signed(out, price.price.value())?;
    out.push(b'\n')?;
    Ok(())
}

fn put_worth(out: &mut Vec<u8>, snapshot: &Snapshot, worth: &WorthOf) -> Result<(), AllocError>
    requires { IsKnownWorth snapshot.now worth.now }
    ensures text { OnOk result (out.new.items ≡ out.old.items ++ line_text (worth_words snapshot.now worth.now)) }
    ensures kept { OnErr result (BeginsWith out.new.items out.old.items) }
{
    let id = id_of_car(snapshot, worth.car);
    put_words(out, b"worth", &[id])?;
    put_signed(out, worth.worth)?;
    put_word(out, worth.claim)?;
    out.push(b'\n')?;
    Ok(())
}

fn put_prices(out: &mut Vec<u8>, snapshot: &Snapshot, prices: &[PriceOf]) -> Result<(), AllocError>
    requires { All (IsKnownPrice snapshot.now) prices.now }
    ensures text { OnOk result (out.new.items ≡ out.old.items ++ lines_text (map (price_words snapshot.now) prices.now)) }
    ensures kept { OnErr result (BeginsWith out.new.items out.old.items) }
{
    for price in prices {
        put_price(out, snapshot, price)?;
    }
    Ok(())
}

fn put_worths(out: &mut Vec<u8>, snapshot: &Snapshot, worths: &[WorthOf]) -> Result<(), AllocError>
    requires { All (IsKnownWorth snapshot.now) worths.now }
    ensures text { OnOk result (out.new.items ≡ out.old.items ++ lines_text (map (worth_words snapshot.now) worths.now)) }
    ensures kept { OnErr result (BeginsWith out.new.items out.old.items) }
{
    for worth in worths {
        put_worth(out, snapshot, worth)?;
    }
    Ok(())
}

/// Writes the prices of a leaf, and then its worths.
fn put_leaf(out: &mut Vec<u8>, snapshot: &Snapshot, leaf: &Leaf) -> Result<(), AllocError>
    requires { IsKnownLeaf snapshot.now leaf.now }
    ensures text { OnOk result (out.new.items ≡ out.old.items
        ++ lines_text (leaf_words ∷ item_lines snapshot.now leaf.now)) }
    ensures kept { OnErr result (BeginsWith out.new.items out.old.items) }
{
    put_line(out, b"leaf", &[])?;
    put_prices(out, snapshot, leaf.prices.as_slice())?;
    put_worths(out, snapshot, leaf.worths.as_slice())
}

fn put_twig(out: &mut Vec<u8>, snapshot: &Snapshot, twig: &Twig) -> Result<(), AllocError>
    requires { IsKnownTwig snapshot.now twig.now }
    ensures text { OnOk result (out.new.items ≡ out.old.items ++ lines_text (twig_lines snapshot.now twig.now)) }
    ensures kept { OnErr result (BeginsWith out.new.items out.old.items) }
{
    match twig {
        Twig::Split { call, part } => put_split(out, snapshot, *call, *part),
        Twig::Leaf(leaf) => put_leaf(out, snapshot, leaf),
    }
}

fn put_twigs(out: &mut Vec<u8>, snapshot: &Snapshot, tree: &[Twig]) -> Result<(), AllocError>
    requires { AreTwigsKnown snapshot.now tree.now }
    ensures text { OnOk result (out.new.items
        ≡ out.old.items ++ flat_map (λ twig. lines_text (twig_lines snapshot.now twig)) tree.now) }
    ensures kept { OnErr result (BeginsWith out.new.items out.old.items) }
{
    for twig in tree {
        put_twig(out, snapshot, twig)?;
    }
    Ok(())
}

fn put_cert(out: &mut Vec<u8>, snapshot: &Snapshot, tree: &[Twig]) -> Result<(), AllocError>
    requires { AreTwigsKnown snapshot.now tree.now }
    ensures text { OnOk result (out.new.items ≡ out.old.items ++ cert_text snapshot.now tree.now) }
    ensures kept { OnErr result (BeginsWith out.new.items out.old.items) }
{
    put_line(out, b"certificate", &[1])?;
    put_twigs(out, snapshot, tree)?;
    put_line(out, b"end", &[])
}

/// Appends the canonical text of a certificate: `certificate 1`, the twigs in preorder, and `end`. A split is
/// `split CALL CAR ..` with the cars of its part by rising index; a leaf is `leaf`, then `price CALL P` for
/// each price and then `worth CAR R CLAIM` for each worth, in the order of the lists.
///
/// Each call and each car must be one of the snapshot. The numbers may be any; a text with one outside the
/// ranges of a certificate is refused where it is read.
///
/// The only error is that memory runs out, which leaves `out` as it was: what was written is cut off again.
pub fn write_cert(snapshot: &Snapshot, tree: &[Twig], out: &mut Vec<u8>) -> Result<(), AllocError>
    requires { AreTwigsKnown snapshot.now tree.now }
    ensures text { OnOk result (out.new.items ≡ out.old.items ++ cert_text snapshot.now tree.now) }
    ensures memory { OnErr result (out.new.items ≡ out.old.items) }
{
    let before = out.len();
    match put_cert(out, snapshot, tree) {
        Ok(()) => Ok(()),
        Err(error) => {
            out.truncate(before);
            Err(error)
        }
    }
}
