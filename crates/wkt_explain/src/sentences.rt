//! A sentence for each fault.

ghost use Rattle.std.specs.Prelude.{◌≡◌};
ghost use Rattle.wkt_explain.specs.Sentences.{condition_sentence, missing_sentence, sentence, slot_sentence, text_sentence, unspelled_sentence};

use wkt_crs::{Condition, DefinitionFault, SlotFault, SlotName, TextFault, Unspelled};

fn text_sentence(fault: TextFault) -> &'static str
    ensures { result.now ≡ text_sentence fault }
{
    match fault {
        TextFault::TooLong => "the text has more than 1,048,576 bytes",
        TextFault::NotUtf8(_) => "this byte is not valid UTF-8",
        TextFault::BadByte(_) => "nothing that a text is made of begins with this character",
        TextFault::TextOpen(_) => "no quotation mark closes the text that begins here",
        TextFault::BadNumber(_) => "this is not written as a number is",
        TextFault::NumberRange(_) =>
            "this number has more than 34 digits, or is too large or too small",
        TextFault::Unexpected(_) => "this cannot follow what stands before it",
        TextFault::Depth(_) => "more than 16 delimiters are open",
        TextFault::EndEarly(_) => "the text ends before it is complete",
        TextFault::After(_) => "the text is complete, and something follows",
    }
}

fn missing_sentence(slot: SlotName) -> &'static str
    ensures { result.now ≡ missing_sentence slot }
{
    match slot {
        SlotName::Datum =>
            "the datum is missing: DATUM or ENSEMBLE, or VDATUM where heights are meant",
        SlotName::Cs => "the coordinate system is missing: CS",
        SlotName::Axis => "an axis is missing: AXIS",
        SlotName::Base => "the base system is missing: BASEGEOGCRS or BASEGEODCRS",
        SlotName::Conversion => "the conversion is missing: CONVERSION",
        SlotName::First => "the horizontal system is missing",
        SlotName::Second => "the vertical system is missing: VERTCRS",
        SlotName::Ellipsoid => "the ellipsoid is missing: ELLIPSOID",
        SlotName::Member => "a member is missing: MEMBER",
        SlotName::Accuracy => "the accuracy is missing: ENSEMBLEACCURACY",
        SlotName::Radius => "the semi-major axis is missing, a number",
        SlotName::Flattening => "the inverse flattening is missing, a number",
        SlotName::Longitude => "the longitude is missing, a number",
        SlotName::Unit => "the unit is missing: ANGLEUNIT or UNIT",
        SlotName::Method => "the method is missing: METHOD",
        SlotName::Value => "the value is missing",
        SlotName::Factor => "the conversion factor is missing, a number",
        SlotName::Dimension => "the dimension is missing, a number",
        SlotName::Direction => "the direction is missing, a word such as north or up",
        SlotName::West => "the western longitude is missing, a number",
        SlotName::North => "the northern latitude is missing, a number",
        SlotName::East => "the eastern longitude is missing, a number",
        SlotName::High => "the greatest height is missing, a number",
        SlotName::Code => "the code is missing, a number or a text in quotation marks",
        _ => "an argument is missing",
    }
}

fn slot_sentence(fault: SlotFault) -> &'static str
    ensures { result.now ≡ slot_sentence fault }
{
    match fault {
        SlotFault::NotHere(_) => "nothing of this kind can stand here",
        SlotFault::NotCount(_) => "this has to be a whole number from 0 to 4,294,967,295",
        SlotFault::WordUnknown(_) => "this is none of the words that can stand here",
        SlotFault::Missing(slot, _) => missing_sentence(slot),
    }
}

fn condition_sentence(condition: Condition) -> &'static str
    ensures { result.now ≡ condition_sentence condition }
{
    match condition {
        Condition::C1 => "there are not as many axes as the dimension says",
        Condition::C2 => "this system cannot have a coordinate system of this kind and dimension",
        Condition::C3 => "an axis has no unit, and there is no unit for all axes",
        Condition::C4 =>
            "either no axis has an ORDER, or the first has ORDER[1], the second ORDER[2], and so on",
        Condition::C5 => "a unit does not fit its axis",
        Condition::C6 => "a compound has a horizontal system of 2 axes, and then a vertical one",
        Condition::C7 =>
            "a semi-major axis or a conversion factor is not above 0, or an inverse flattening is negative",
        Condition::C8 => "a MERIDIAN stands only after north or south",
    }
}

fn unspelled_sentence(fault: Unspelled) -> &'static str
    ensures { result.now ≡ unspelled_sentence fault }
{
    match fault {
        Unspelled::Text(fault) => text_sentence(fault),
        Unspelled::Slot(fault) => slot_sentence(fault),
        Unspelled::Broken { condition, .. } => condition_sentence(condition),
    }
}

/// The sentence, without an end mark.
pub fn sentence(fault: DefinitionFault) -> &'static str
    ensures { result.now ≡ sentence fault }
{
    match fault {
        DefinitionFault::Read(fault) => unspelled_sentence(fault),
        DefinitionFault::NoIdentifier => "the system has no ID of its own",
        DefinitionFault::CanonicalTooLong => "the canonical text has more than 65,536 bytes",
        DefinitionFault::NotCanonical => "this is not the canonical text of what it spells",
        DefinitionFault::Memory => "out of memory",
    }
}
