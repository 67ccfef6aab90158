// The C interface, as Rattle calls it: numbers and plain slices in, one call, numbers out. `include/gemlab.h` says what each
// function means to its caller; each contract says that the number returned and everything lent are those of the call's
// definition. `capi_c` shows the same to C.
#![tactic(auto)]

mod cells;
mod directories;
mod distances;
mod index;
mod library;
mod lists;
mod sheet;
mod survey;
mod told;

// for Rattle programs, and for `capi_c`
pub use cells::gemlab_grid_cells_new;
pub use directories::{
    gemlab_directory_build, gemlab_directory_insert, gemlab_directory_list,
    gemlab_directory_look_up, gemlab_directory_search, gemlab_directory_strike,
};
pub use distances::{
    gemlab_point_circle_distance, gemlab_point_cylinder_distance, gemlab_point_line_distance,
    gemlab_point_point_distance,
};
pub use index::gemlab_grid_cells_search;
pub use library::{
    gemlab_grid_search_check, gemlab_grid_search_insert, gemlab_grid_search_search,
    gemlab_grid_search_strike,
};
pub use lists::gemlab_grid_search_list;
pub use sheet::gemlab_grid_search_new;
pub use survey::{gemlab_survey_export, gemlab_survey_import};
