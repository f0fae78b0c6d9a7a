//! Checked programs whose files are the trees of texts: what the grammar adds to the rules of types, and
//! how many strings a text and a checked program have.
#![tactic(auto)]

ghost use Rattle.fx_c_types_texts_law.specs.Laws.{CheckedDevicesFit, CheckedNumbersAreFew, WrittenProgramsAreRight, CheckedElementsFit};
ghost use Rattle.fx_c_types_texts_law.specs.StringLaws.{StringsTakeBytes, CheckedStringsAreWritten};

/// Each device in the expressions of a program is one of 16, each register one of its 512.
pub fn checked_devices_fit()
    ensures { CheckedDevicesFit }
{}

/// A program has no more strings, and none of its structs more members, than its texts have bytes.
pub fn checked_numbers_are_few()
    ensures { CheckedNumbersAreFew }
{}

/// In a program of at most 64 MiB of texts every number in a body is there, and every type is right.
pub fn written_programs_are_right()
    ensures { WrittenProgramsAreRight }
{}

/// Elements that are indexed, that a pointer is moved over, or that lie between two pointers, have
/// a size, from 1 byte to 64 MiB.
pub fn checked_elements_fit()
    ensures { CheckedElementsFit }
{}

/// A text has no fewer bytes than strings in its expressions.
pub fn strings_take_bytes()
    ensures { StringsTakeBytes }
{}

/// A checked program has as many strings as stand in the expressions of its files.
pub fn checked_strings_are_written()
    ensures { CheckedStringsAreWritten }
{}
