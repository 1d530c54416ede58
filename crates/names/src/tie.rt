// Each name is the model's number: were one of them another, this crate would not be proved.
ghost use Rattle.std.specs.Prelude.{◌≡◌, [], ◌∷◌, ◌+◌, ◌-◌, ◌/◌, suc, length};
ghost use Rattle.model.specs.Effect.Places.{draft_sort, object_sort};
ghost use Rattle.model.specs.Level.{compartment_count, downgrader, level_count, officer, releasing, role_count, role_sets};
ghost use Rattle.model.specs.List.Listing.{entry_words};
ghost use Rattle.model.specs.Request.Operations.{number_of, operations};
ghost use Rattle.model.specs.Request.Words.{name_count, request_words};
ghost use Rattle.model.specs.Script.State.{file_bytes, fourth_weight, second_weight, third_weight, word_bytes};
ghost use Rattle.model.specs.Script.Windows.{report_bytes};
ghost use Rattle.model.specs.Tables.Layout.{entities_from, entity_width, offset, user_offset, user_width, word_count};
ghost use Rattle.model.specs.Tables.Words.{absent_kind, authorised, clearance, container_kind, current, device, device_kind, draft_type, entity_count};
ghost use Rattle.model.specs.Tables.Words.{first_noticed, held, held_op, kind, label_bit, last_noticed, level, mark, maximum, missed, missed_most};
ghost use Rattle.model.specs.Tables.Words.{object_kind, operation_count, operation_weight, place, place_count, plain_type, position_count, present};
ghost use Rattle.model.specs.Tables.Words.{released_type, releaser, shown, spare, spare_count, sum_most, triple, type, used, user_count, value, value_bit};
ghost use Rattle.model.specs.Tables.Words.{who_most, who_role, who_weight};
ghost use Rattle.model.specs.Text.Lines.{line_end};
ghost use Rattle.model.specs.Text.Numbers.{most, nine_byte, zero_byte};
ghost use Rattle.model.specs.Text.References.{dot_byte};
ghost use Rattle.model.specs.Text.Unfinished.{line_total, longest};
ghost use Rattle.model.specs.Text.Wording.{a_key, b_key, c_key, op_key, ref2_key, ref_key, user_key};
ghost use Rattle.names.specs.Listed.{answers, numbers};

use crate::op::{Op, Position};
use crate::refusal::Refusal;
use crate::row::Row;
use crate::{kind, op, range, refusal, role, shown, size, sort, text, types, weight, word};

fn counts_are() -> [u32; 8]
    ensures { result ≡ user_count ∷ entity_count ∷ suc entity_count ∷ place_count ∷ place_count ∷ name_count ∷ compartment_count ∷ role_count ∷ [] }
{
    [
        size::USERS,
        size::ENTITIES,
        size::PAST_ENTITIES,
        size::PLACES,
        size::TRIPLES,
        size::NAMES,
        size::COMPARTMENTS,
        size::ROLES,
    ]
}

fn lengths_are() -> [usize; 12]
    ensures { result ≡ place_count ∷ spare_count ∷ place_count ∷ user_width ∷ entity_width ∷ entities_from ∷ word_count ∷ request_words ∷ entry_words
        ∷ word_bytes ∷ file_bytes ∷ suc entity_count ∷ [] }
{
    [
        size::SINGLES,
        size::SPARES,
        size::ROW_WORDS,
        size::USER_WORDS,
        size::ENTITY_WORDS,
        size::ALL_USER_WORDS,
        size::TABLE_WORDS,
        size::REQUEST_WORDS,
        size::ENTRY_WORDS,
        size::WORD_BYTES,
        size::STATE_BYTES,
        size::ENTITY_NUMBERS,
    ]
}

fn ranges_are() -> [u32; 8]
    ensures { result ≡ level_count ∷ role_sets ∷ sum_most ∷ who_most ∷ operation_count ∷ position_count ∷ first_noticed ∷ last_noticed ∷ [] }
{
    [
        range::LEVELS,
        range::ROLE_SETS,
        range::SUM_MOST,
        range::WHO_MOST,
        range::OPERATION_MOST,
        range::POSITION_MOST,
        range::FIRST_NOTICED,
        range::LAST_NOTICED,
    ]
}

// The last kind, type and sort are the greatest; a mark and a user's presence are 0 or 1.
fn ends_are() -> [u32; 6]
    ensures { result ≡ missed_most ∷ device_kind ∷ released_type ∷ draft_sort ∷ 1 ∷ 1 ∷ [] }
{
    [
        range::MISSED_MOST,
        range::KIND_MOST,
        range::TYPE_MOST,
        range::SORT_MOST,
        range::MARK_MOST,
        range::PRESENT_MOST,
    ]
}

fn operations_are() -> [u32; 20]
    ensures { result ≡ numbers operations }
{
    [
        Op::Create as u32,
        Op::Delete as u32,
        Op::Move as u32,
        Op::Edit as u32,
        Op::Copy as u32,
        Op::SetLevel as u32,
        Op::SetMark as u32,
        Op::Grant as u32,
        Op::Revoke as u32,
        Op::Show as u32,
        Op::Clear as u32,
        Op::Login as u32,
        Op::Logout as u32,
        Op::CurrentRoles as u32,
        Op::Clearance as u32,
        Op::AuthorisedRoles as u32,
        Op::Maximum as u32,
        Op::DeviceLevel as u32,
        Op::Release as u32,
        Op::Acknowledge as u32,
    ]
}

fn positions_are() -> [u32; 3]
    ensures { result ≡ 1 ∷ position_count ∷ 0 ∷ [] }
{
    [Position::First as u32, Position::Second as u32, op::NONE]
}

fn answers_are() -> [u32; 19]
    ensures { result ≡ answers }
{
    [
        refusal::ACCEPTED,
        Refusal::BadLength as u32,
        Refusal::NotWellFormed as u32,
        Refusal::NotSecure as u32,
        Refusal::UnknownRequester as u32,
        Refusal::BadRequest as u32,
        Refusal::NotLoggedOn as u32,
        Refusal::NoSuchName as u32,
        Refusal::NoAccess as u32,
        Refusal::Marked as u32,
        Refusal::WrongKind as u32,
        Refusal::NoSuchUser as u32,
        Refusal::RoleMissing as u32,
        Refusal::LevelOrRoles as u32,
        Refusal::NoRoom as u32,
        Refusal::Arrangement as u32,
        Refusal::NotAcknowledged as u32,
        Refusal::TooShort as u32,
        Refusal::NotARequest as u32,
    ]
}

fn kinds_are() -> [u32; 7]
    ensures { result ≡ absent_kind ∷ object_kind ∷ container_kind ∷ device_kind ∷ plain_type ∷ draft_type ∷ released_type ∷ [] }
{
    [
        kind::ABSENT,
        kind::OBJECT,
        kind::CONTAINER,
        kind::DEVICE,
        types::PLAIN,
        types::DRAFT,
        types::RELEASED,
    ]
}

fn bits_are() -> [u32; 5]
    ensures { result ≡ officer ∷ downgrader ∷ releasing ∷ value_bit ∷ label_bit ∷ [] }
{
    [
        role::OFFICER,
        role::DOWNGRADER,
        role::RELEASER,
        shown::VALUE,
        shown::LABEL,
    ]
}

fn weights_are() -> [u32; 3]
    ensures { result ≡ who_weight ∷ operation_weight ∷ who_role 0 ∷ [] }
{
    [weight::WHO, weight::OPERATION, weight::FIRST_ROLE]
}

fn sorts_are() -> [u32; 3]
    ensures { result ≡ object_sort ∷ suc object_sort ∷ draft_sort ∷ [] }
{
    [sort::OBJECT, sort::CONTAINER, sort::DRAFT]
}

fn user_words_are() -> [usize; 9]
    ensures { result ≡ user_offset present ∷ user_offset clearance ∷ user_offset authorised ∷ user_offset current ∷ user_offset device
        ∷ user_offset held ∷ user_offset held_op ∷ user_offset missed ∷ user_offset (spare 0) ∷ [] }
{
    [
        word::PRESENT,
        word::CLEARANCE,
        word::AUTHORISED,
        word::CURRENT,
        word::DEVICE,
        word::HELD,
        word::HELD_OPERATION,
        word::MISSED,
        word::USER_SPARES,
    ]
}

fn entity_words_are() -> [usize; 8]
    ensures { result ≡ offset kind ∷ offset type ∷ offset level ∷ offset mark ∷ offset value ∷ offset releaser ∷ offset maximum
        ∷ offset used ∷ [] }
{
    [
        word::KIND,
        word::TYPE,
        word::LEVEL,
        word::MARK,
        word::VALUE,
        word::RELEASER,
        word::MAXIMUM,
        word::USED,
    ]
}

// Row r begins so many words after the single ones.
fn rows_are() -> [usize; 3]
    ensures { result ≡ (offset (place 0) - place_count) / place_count ∷ (offset (shown 0) - place_count) / place_count
        ∷ (offset (triple 0) - place_count) / place_count ∷ [] }
{
    [
        Row::Places as usize,
        Row::Sums as usize,
        Row::Triples as usize,
    ]
}

fn bytes_are() -> [u8; 4]
    ensures { result ≡ zero_byte ∷ nine_byte ∷ dot_byte ∷ line_end ∷ [] }
{
    [text::DIGIT_0, text::DIGIT_9, text::DOT, text::LINE_END]
}

fn numbers_are() -> [u64; 2]
    ensures { result ≡ most ∷ suc most ∷ [] }
{
    [text::NUMBER_MOST, text::NUMBERS]
}

fn byte_weights_are() -> [u32; 3]
    ensures { result ≡ second_weight ∷ third_weight ∷ fourth_weight ∷ [] }
{
    [text::SECOND_BYTE, text::THIRD_BYTE, text::FOURTH_BYTE]
}

// The keys have their equals signs with them, and a line end follows each value.
fn text_lengths_are() -> [usize; 4]
    ensures { result ≡ longest ∷ report_bytes ∷ (length user_key + length op_key + length ref_key + length ref2_key + length a_key + length b_key
        + length c_key + line_total) ∷ line_total ∷ [] }
{
    [
        text::TEXT_MOST,
        text::REPORT_MOST,
        text::KEY_BYTES,
        text::LINES,
    ]
}

// The lines count from 1 on, in the order of the keys.
fn line_numbers_are() -> [u32; 8]
    ensures { result ≡ 1 ∷ 2 ∷ 3 ∷ 4 ∷ 5 ∷ 6 ∷ line_total ∷ suc line_total ∷ [] }
{
    [
        text::USER_LINE,
        text::OPERATION_LINE,
        text::FIRST_LINE,
        text::SECOND_LINE,
        text::A_LINE,
        text::B_LINE,
        text::C_LINE,
        text::LINE_AFTER,
    ]
}
