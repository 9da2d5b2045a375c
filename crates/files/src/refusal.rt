ghost use Rattle.std.specs.Prelude.{◌≡◌, Some};
ghost use Rattle.files.specs.Refusals.{number as number_of, place as place_of};
ghost use Rattle.files.specs.Lines.{words as words_of, line};

use crate::layout::{BANDS_AT, KIND_AT, LENGTH_AT, NUMERATOR_AT, ROUTES_AT, SECTIONS_AT, WHOLE_AT};
use std::fmt;

/// Why a file is not read.
#[derive(Clone, Copy, PartialEq, Eq, Debug)]
pub enum ReadRefusal {
    /// The file has fewer than 16 bytes; this is how many it has.
    Short(usize),
    /// The length field is not the file's size.
    Length,
    /// The file holds another kind of chart.
    OtherKind,
    /// The number of sections is not from 1 to 32.
    Sections,
    /// The discount a / b does not have 1 ≤ a < b ≤ 1000.
    Discount,
    /// The kind does not allow this whole.
    Whole,
    /// The bands do not lie wholly in the file after the header.
    Bands,
    /// The routes do not lie wholly in the file after the header, or share a byte with the bands.
    Routes,
    /// The row of this section does not add up to the whole.
    Row(usize),
    /// The mask of this section is 0, or marks a section that the chart has not.
    Mask(usize),
}

impl ReadRefusal {
    /// The number of the check that failed.
    pub fn number(&self) -> u16
        ensures { result ≡ number_of self.now }
    {
        match self {
            ReadRefusal::Short(_) | ReadRefusal::Length => 1,
            ReadRefusal::OtherKind => 2,
            ReadRefusal::Sections => 3,
            ReadRefusal::Discount => 4,
            ReadRefusal::Whole => 5,
            ReadRefusal::Bands | ReadRefusal::Routes => 6,
            ReadRefusal::Row(_) | ReadRefusal::Mask(_) => 7,
        }
    }

    /// The place of what is wrong: a file's size, a byte of its header, or a section.
    pub fn place(&self) -> usize
        ensures { result ≡ place_of self.now }
    {
        match self {
            ReadRefusal::Short(size) => *size,
            ReadRefusal::Length => LENGTH_AT,
            ReadRefusal::OtherKind => KIND_AT,
            ReadRefusal::Sections => SECTIONS_AT,
            ReadRefusal::Discount => NUMERATOR_AT,
            ReadRefusal::Whole => WHOLE_AT,
            ReadRefusal::Bands => BANDS_AT,
            ReadRefusal::Routes => ROUTES_AT,
            ReadRefusal::Row(section) | ReadRefusal::Mask(section) => *section,
        }
    }

    /// What is wrong, in words.
    fn words(&self) -> &'static str
        ensures { result.now ≡ words_of self.now }
    {
        match self {
            ReadRefusal::Short(_) => "the file has fewer than 16 bytes",
            ReadRefusal::Length => "the length field is not the size of the file",
            ReadRefusal::OtherKind => "the file holds another kind of chart",
            ReadRefusal::Sections => "the number of sections is not from 1 to 32",
            ReadRefusal::Discount => "the discount a / b does not have 1 <= a < b <= 1000",
            ReadRefusal::Whole => "P is not from 1 to 10,000, or in a choice chart not 0",
            ReadRefusal::Bands => "the bands do not lie in the file",
            ReadRefusal::Routes => {
                "the routes do not lie in the file, or share a byte with the bands"
            }
            ReadRefusal::Row(_) => "a row does not add up to the whole",
            ReadRefusal::Mask(_) => "a mask is 0, or marks a section that the chart has not",
        }
    }
}

impl fmt::Display for ReadRefusal {
    ghost output = { λ e. Some (line e) };

    fn fmt<W: fmt::Write>(&self, f: &mut fmt::Formatter<W>) -> fmt::Result {
        let number = self.number();
        let place = self.place();
        let words = self.words();
        write!(f, "{number} {place} ({words})")
    }
}
