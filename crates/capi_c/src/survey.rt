// Point lists of surveyors: a text becomes marks, and marks become a text.
ghost use Rattle.mark_lists.specs.MarkLists.{mark_list};
ghost use Rattle.survey_import.specs.Import.{importing};
ghost use Rattle.survey_export.specs.Export.{exporting};
ghost use Rattle.capi.specs.Lists.{ToldList};
ghost use Rattle.capi.specs.Surveys.{ToldImport};

#[unsafe(no_mangle)]
pub extern "C" fn gemlab_survey_import(
    text: &[u8],
    ids: &mut [u64],
    xs: &mut [f64],
    ys: &mut [f64],
    zs: &mut [f64],
    used: &mut u64,
    line: &mut u64,
) -> u64
    ensures { ToldImport (importing (mark_list ids.old xs.old ys.old zs.old used.old) text.now)
        result (mark_list ids.new xs.new ys.new zs.new used.new) line.old line.new }
{
    capi::gemlab_survey_import(text, ids, xs, ys, zs, used, line)
}

#[unsafe(no_mangle)]
pub extern "C" fn gemlab_survey_export(
    ids: &[u64],
    xs: &[f64],
    ys: &[f64],
    zs: &[f64],
    used: u64,
    text: &mut [u8],
    length: &mut u64,
) -> u64
    ensures { ToldList (exporting (mark_list ids.now xs.now ys.now zs.now used) text.old)
        result text.new length.old length.new }
{
    capi::gemlab_survey_export(ids, xs, ys, zs, used, text, length)
}
