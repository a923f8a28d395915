//! The rule on delivery: one route.
ghost use Rattle.std.specs.Prelude.{◌≡◌, ◌↔◌, ◌<◌, All, IfSome, IsTrue, MatchOption, length, slice_get};
ghost use Rattle.tp_judge.specs.Delivered.{AgreesBelow, AreParcelsNumbered, DiffersAt, CameAsSent};
ghost use Rattle.tp_judge.specs.Delivered.{IsMisnumbered, IsOvertaken, IsPlaceOfLine, IsUnlawfulRoute};
ghost use Rattle.tp_judge.specs.Delivered.{IsWrongAt, NamesParcel, ParcelAt, parcels};
ghost use Rattle.tp_judge.specs.LinesByNumber.{lines_at};
ghost use Rattle.tp_judge.specs.Routed.{HasNumberFrom, NoNumberFrom};

use crate::line::{IndexedLine, Parcel};
use crate::place::{Rule, UnlawfulPlace};

fn parcel_at(lines: &[&IndexedLine], place: usize) -> Parcel
    requires names { All NamesParcel (lines_at lines.now) }
    requires within { place < length lines.now }
    ensures { ParcelAt (lines_at lines.now) place result }
{
    match lines[place].act.parcel() {
        Some(parcel) => parcel,
        // Each of these lines names one.
        None => unreachable!(),
    }
}

fn told_at(rule: Rule, lines: &[&IndexedLine], place: usize) -> UnlawfulPlace
    requires { place < length lines.now }
    ensures rule { result.rule ≡ rule }
    ensures told { IsPlaceOfLine (lines_at lines.now) place result }
{
    UnlawfulPlace {
        line: lines[place].number,
        rule,
    }
}

fn misnumbered(sent: &[&IndexedLine]) -> Option<usize>
    requires { All NamesParcel (lines_at sent.now) }
    ensures within { IfSome result (λ k. k < length sent.now) }
    ensures numbered { MatchOption result
        (AreParcelsNumbered (parcels (lines_at sent.now)))
        (IsMisnumbered (lines_at sent.now)) }
{
    for place in 0..sent.len() {
        if parcel_at(sent, place).number != place as u64 {
            return Some(place);
        }
    }
    None
}

fn agrees(sent: &[&IndexedLine], came: &[&IndexedLine], place: usize) -> bool
    requires sent { All NamesParcel (lines_at sent.now) }
    requires came { All NamesParcel (lines_at came.now) }
    requires within { place < length came.now }
    ensures { IsTrue result
        ↔ (slice_get (parcels (lines_at sent.now)) place
        ≡ slice_get (parcels (lines_at came.now)) place) }
{
    let parcel = parcel_at(came, place);
    if place >= sent.len() {
        return false;
    }
    parcel_at(sent, place) == parcel
}

fn first_difference(sent: &[&IndexedLine], came: &[&IndexedLine]) -> Option<usize>
    requires sent { All NamesParcel (lines_at sent.now) }
    requires came { All NamesParcel (lines_at came.now) }
    ensures within { IfSome result (λ k. k < length came.now) }
    ensures differs { MatchOption result
        (AgreesBelow (lines_at sent.now) (lines_at came.now) (length came.now))
        (DiffersAt (lines_at sent.now) (lines_at came.now)) }
{
    for place in 0..came.len() {
        if !agrees(sent, came, place) {
            return Some(place);
        }
    }
    None
}

fn find_from(came: &[&IndexedLine], from: usize, number: u64) -> Option<usize>
    requires { All NamesParcel (lines_at came.now) }
    ensures { MatchOption result
        (NoNumberFrom (lines_at came.now) from number)
        (HasNumberFrom (lines_at came.now) from number) }
{
    for place in from..came.len() {
        if parcel_at(came, place).number == number {
            return Some(place);
        }
    }
    None
}

fn overtaken_at(sent: &[&IndexedLine], came: &[&IndexedLine], place: usize) -> UnlawfulPlace
    requires sent { All NamesParcel (lines_at sent.now) }
    requires came { All NamesParcel (lines_at came.now) }
    requires numbered { AreParcelsNumbered (parcels (lines_at sent.now)) }
    requires agrees { AgreesBelow (lines_at sent.now) (lines_at came.now) place }
    requires overtaken { IsOvertaken (lines_at sent.now) (lines_at came.now) place }
    requires within { place < length sent.now }
    ensures { IsWrongAt (lines_at sent.now) (lines_at came.now) place result }
{
    let parcel = parcel_at(sent, place);
    match find_from(came, place, place as u64) {
        None => told_at(Rule::Lost, sent, place),
        Some(later) => {
            if parcel_at(came, later) != parcel {
                return told_at(Rule::Changed, came, later);
            }
            told_at(Rule::Reordered, came, later)
        }
    }
}

fn fault_at(sent: &[&IndexedLine], came: &[&IndexedLine], place: usize) -> UnlawfulPlace
    requires sent { All NamesParcel (lines_at sent.now) }
    requires came { All NamesParcel (lines_at came.now) }
    requires numbered { AreParcelsNumbered (parcels (lines_at sent.now)) }
    requires within { place < length came.now }
    requires differs { DiffersAt (lines_at sent.now) (lines_at came.now) place }
    ensures { IsWrongAt (lines_at sent.now) (lines_at came.now) place result }
{
    let parcel = parcel_at(came, place);
    if parcel.number >= sent.len() as u64 {
        return told_at(Rule::Invented, came, place);
    }
    if parcel.number < place as u64 {
        return told_at(Rule::Doubled, came, place);
    }
    let original = parcel_at(sent, parcel.number as usize);
    if original != parcel {
        return told_at(Rule::Changed, came, place);
    }
    overtaken_at(sent, came, place)
}

pub(crate) fn route_place(sent: &[&IndexedLine], came: &[&IndexedLine]) -> Option<UnlawfulPlace>
    requires sent { All NamesParcel (lines_at sent.now) }
    requires came { All NamesParcel (lines_at came.now) }
    ensures { MatchOption result
        (CameAsSent (lines_at sent.now) (lines_at came.now))
        (IsUnlawfulRoute (lines_at sent.now) (lines_at came.now)) }
{
    if let Some(place) = misnumbered(sent) {
        return Some(told_at(Rule::Numbering, sent, place));
    }
    if let Some(place) = first_difference(sent, came) {
        return Some(fault_at(sent, came, place));
    }
    if came.len() < sent.len() {
        return Some(told_at(Rule::Lost, sent, came.len()));
    }
    None
}
