//! The law that what is written is read back.

ghost use Rattle.std.specs.Prelude.{◌≡◌, ℕ, ℤ, ◌+◌, ◌-◌, ◌/◌, ◌%◌, ◌^◌, ◌<◌, ◌∷◌, ◌++◌, Bool, Option, List, length, slice_index, FitsSigned};
ghost use Rattle.std.specs.Int.{w32, bit_at};
ghost use Rattle.bac_values.specs.Identifier.{IsIdentifier, ObjectIdData};
ghost use Rattle.bac_values.specs.BitString.{IsBitString, BitsData};
ghost use Rattle.bac_values.specs.declared.stamp.Stamp.{Stamp};
ghost use Rattle.bac_values.specs.declared.value.Value.{Value};
ghost use Rattle.bac_tags.specs.declared.tag.Tag.{Tag};
ghost use Rattle.bac_tags.specs.Tags.{FitsShape};
ghost use Rattle.bac_tags.specs.Contents.{IsBits};
ghost use Rattle.bac_tags.specs.Values.{IsOneElement};
ghost use Rattle.bac_tags.specs.ReadingSteps.{tag_at, unsigned_at, signed_at, object_at, boolean_at, bits_at, octet_string_at, time_at, stamp_at, value_at};
ghost use Rattle.bac_tags.specs.Writing.{written_tag, written_unsigned, written_signed, written_object, written_boolean, written_bits, written_octet_string, written_time, written_stamp, written_value};

/// What was written is read back with its place, whatever stands before it and behind it. A date with a time is
/// read back by the reader of stamps.
pub fn reads_back()
    ensures tag { (before rest : List ℕ) (tag : Tag) → FitsShape tag.shape → tag_at (before ++ written_tag tag ++ rest) (length before) ≡ Ok (tag, length before + length (written_tag tag)) }
    ensures unsigned { (before rest : List ℕ) (context : Option ℕ) (n : ℕ) → n < 2 ^ 32 → unsigned_at (before ++ written_unsigned context n ++ rest) (length before) context ≡ Ok (n, length before + length (written_unsigned context n)) }
    ensures signed { (before rest : List ℕ) (context : Option ℕ) (z : ℤ) → FitsSigned w32 z → signed_at (before ++ written_signed context z ++ rest) (length before) context ≡ Ok (z, length before + length (written_signed context z)) }
    ensures object { (before rest : List ℕ) (context : Option ℕ) (id : ObjectIdData) → IsIdentifier id.number id.instance → object_at (before ++ written_object context id ++ rest) (length before) context ≡ Ok (id, length before + length (written_object context id)) }
    ensures boolean { (before rest : List ℕ) (context : Option ℕ) (b : Bool) → boolean_at (before ++ written_boolean context b ++ rest) (length before) context ≡ Ok (b, length before + length (written_boolean context b)) }
    ensures bits { (before rest : List ℕ) (context : Option ℕ) (string : BitsData) → IsBitString string.size string.bits → bits_at (before ++ written_bits context string ++ rest) (length before) context ≡ Ok (string, length before + length (written_bits context string)) }
    ensures stamp { (before rest : List ℕ) (stamp : Stamp) → length stamp.octets ≡ 8 → stamp_at (before ++ written_stamp stamp ++ rest) (length before) ≡ Ok (stamp, length before + length (written_stamp stamp)) }
    ensures octet_string { (before rest octets : List ℕ) → length octets < 2 ^ 32 → octet_string_at (before ++ written_octet_string octets ++ rest) (length before) ≡ Ok (octets, length before + length (written_octet_string octets)) }
    ensures time { (before rest time : List ℕ) → length time ≡ 4 → time_at (before ++ written_time time ++ rest) (length before) ≡ Ok (time, length before + length (written_time time)) }
    ensures value { (before rest : List ℕ) (value : Value) → IsOneElement value → value_at (before ++ written_value value ++ rest) (length before) ≡ Ok (value, length before + length (written_value value)) }
{}

/// A bit of a string is the one at its place among the octets: the first bit of each eight is the highest of their
/// octet (20.2.10).
pub fn bits_in_order()
    ensures { (unused : ℕ) (octets : List ℕ) (string : BitsData) → ((k : ℕ) → slice_index octets k < 256) → IsBits (unused ∷ octets) string → (i : ℕ) → i < string.size → bit_at string.bits i ≡ bit_at (slice_index octets (i / 8)) (7 - i % 8) }
{}
