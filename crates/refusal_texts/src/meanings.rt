//! What the fields of a document mean, with their ranges and units.

/// What a field of the document or of its weights means, and what it may be.
fn meaning_in_document(field: &str) -> Option<&'static str> {
    Some(match field {
        "slot_minutes" => "the minutes of a slot: 5, 10, 15, 20, 30 or 60",
        "days" => "the days of the planning period, from 1 to 7",
        "need" => {
            "the wanted employees of each slot: a list of whole numbers from 0 to 10,000, one for each slot of the planning period"
        }
        "need_max" => {
            "the most wanted employees of each slot, where more than the need will do as well: a list of whole numbers from the need to 10,000, one for each slot of the planning period"
        }
        "max_heads" => { "the most employees who may work one shift on one day, from 1 to 200" }
        "weights" => "the costs, as {\"excess\": 1, \"shortage\": 4, \"shift\": 25}",
        "types" => "a list of 1 to 16 shift types, each an object",
        "excess" => "the cost of an employee too many in a slot, from 0 to 1,000,000",
        "shortage" => "the cost of an employee too few in a slot, from 0 to 1,000,000",
        "shift" => "the cost of each shift that is used, from 0 to 1,000,000",
        _ => return None,
    })
}

/// What a field of a shift type means, and what it may be.
fn meaning_in_type(field: &str) -> Option<&'static str> {
    Some(match field {
        "name" => {
            "the name of the type: a text of 1 to 32 letters, digits and signs of ASCII without a blank"
        }
        "start_min" => {
            "the earliest slot at which a shift of the type starts, counted from midnight, from 0 to start_max"
        }
        "start_max" => {
            "the latest slot at which a shift of the type starts, counted from midnight, below the slots of two days"
        }
        "len_min" => "the least length of its shifts, in slots, from 1 to len_max",
        "len_max" => "the greatest length of its shifts, in slots, at most those of a day",
        "breaks" => "its break rule: an object, or null for shifts without breaks",
        _ => return None,
    })
}

/// What a number of a break rule means, and what it may be.
fn meaning_in_breaks(field: &str) -> Option<&'static str> {
    Some(match field {
        "lead" => "the least slots before the first break, from 0 to 288",
        "tail" => "the least slots behind the last break, from 0 to 288",
        "work_min" => "the least slots of work without a break, from 1 to work_max",
        "work_max" => "the most slots of work without a break, at most 288",
        "long_work" => "the most slots of work behind which any break will do, from 0 to 288",
        "long_rest" => "the least slots of a break behind longer work, from 0 to 48",
        "size_min" => "the least slots of a break, from 1 to size_max",
        "size_max" => "the most slots of a break, at most 48",
        "totals" => {
            "the break time by length: a list of at most 16 entries [from, total] in slots, as [[16, 1], [32, 4]]"
        }
        "lunches" => {
            "the breaks that have to lie in a window: a list of at most 2 entries [from_len, size, first, last] in slots, as [[28, 2, 12, 22]]"
        }
        "resettle" => "the slots behind a break that don't count as cover yet, 0 or 1",
        _ => return None,
    })
}

/// What a field means, with its range and its unit; the empty text of a name that no field has.
pub(crate) fn meaning(field: &str) -> &'static str {
    meaning_in_document(field)
        .or(meaning_in_type(field))
        .or(meaning_in_breaks(field))
        .unwrap_or("")
}
