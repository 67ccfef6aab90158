// Point lists of surveyors: a text becomes marks, and marks become a text.
ghost use Rattle.mark_lists.specs.MarkLists.{mark_list};
ghost use Rattle.survey_import.specs.Import.{importing};
ghost use Rattle.survey_export.specs.Export.{exporting};
ghost use Rattle.capi.specs.Lists.{ToldList};
ghost use Rattle.capi.specs.Surveys.{ToldImport};

use crate::told::tell_count;
use basics::Refusal;
use mark_lists::{MarkLists, MarkListsMut};
use survey_import::ImportError;

// Writes the marks of a text and their count; what that held is not read. Returns 0, or the first of 24, 13, 27 and 12 that
// applies, and then writes nothing but, where it is 27, the first bad line, counted from 1.
pub fn gemlab_survey_import(
    text: &[u8],
    ids: &mut [u64],
    xs: &mut [f64],
    ys: &mut [f64],
    zs: &mut [f64],
    used: &mut u64,
    line: &mut u64,
) -> u64
    ensures { ToldImport (importing (mark_list ids.old xs.old ys.old zs.old used.old) text.now)
        result (mark_list ids.new xs.new ys.new zs.new used.new) line.old line.new }
{
    let mut lists = MarkListsMut {
        ids,
        xs,
        ys,
        zs,
        used: 0,
    };
    match survey_import::import(text, &mut lists) {
        Ok(n) => {
            *used = n as u64;
            0
        }
        Err(ImportError::Malformed(bad)) => {
            *line = bad as u64;
            u64::from(Refusal::Malformed)
        }
        Err(ImportError::Refused(refusal)) => u64::from(refusal),
    }
}

// Writes the text of the marks in use and its length. Returns 0, or the first of 24, 13, 28 and 14 that applies, and then writes
// nothing.
pub fn gemlab_survey_export(
    ids: &[u64],
    xs: &[f64],
    ys: &[f64],
    zs: &[f64],
    used: u64,
    text: &mut [u8],
    length: &mut u64,
) -> u64
    ensures { ToldList (exporting (mark_list ids.now xs.now ys.now zs.now used) text.old)
        result text.new length.old length.new }
{
    let lists = MarkLists {
        ids,
        xs,
        ys,
        zs,
        used: used as usize,
    };
    tell_count(survey_export::export(lists, text), length)
}
