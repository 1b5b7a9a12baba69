// Records of a stored shelf as bytes: definitions, and that reading undoes writing and writing reading.
#![tactic(auto)]

ghost use Rattle.codec_laws.specs.Code.{Exact};
ghost use Rattle.codec_laws.specs.Entries.{entry_code, state_code, rule_code};
ghost use Rattle.codec_laws.specs.Ranges.{range_code, range_term_code};
ghost use Rattle.codec_laws.specs.Marks.{set_code, mark_term_code};

// Every kind of record is read and written exactly.
pub fn records_are_exact() -> u8
    ensures entries { Exact entry_code }
    ensures states { Exact state_code }
    ensures ranges { Exact range_code }
    ensures range_terms { Exact range_term_code }
    ensures sets { Exact set_code }
    ensures rules { Exact (rule_code range_code) × Exact (rule_code set_code) }
    ensures mark_terms { Exact mark_term_code }
{
    0
}
