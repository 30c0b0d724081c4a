//! That a line of a result is a record of the `csv` library. The functions do nothing: what is proved is their contract.
ghost use Rattle.dk_texts.specs.Laws.{FieldsAreThoseOfCsv, ValuesAreFieldsOfCsv, LinesAreRecordsOfCsv};

/// Bytes as a field are what the library's default writer writes of them.
#[tactic(auto, using(crate::proofs::FieldLemmas::fields_are))]
pub fn fields_are_those_of_csv()
    ensures { FieldsAreThoseOfCsv }
{}

/// A value in a line is what the library's default writer writes of its bytes.
#[tactic(auto, using(crate::proofs::LineLawLemmas::values_are))]
pub fn values_are_fields_of_csv()
    ensures { ValuesAreFieldsOfCsv }
{}

/// A line is what the library's default writer writes of the values' bytes, with its end.
#[tactic(auto, using(crate::proofs::LineLawLemmas::lines_are))]
pub fn lines_are_records_of_csv()
    ensures { LinesAreRecordsOfCsv }
{}
