//! Reads the words of the command line.
ghost use Rattle.std.specs.Prelude.{◌≡◌, option_map};
ghost use Rattle.xp_run.specs.Inputs.{named};

use xp_base::Txt;

/// The names of a run's texts. There may be no rows file.
#[derive(Clone, Copy)]
pub struct TextNames<'a> {
    pub catalog: &'a Txt,
    pub script: &'a Txt,
    pub rows: Option<&'a Txt>,
}

/// The names, where the words are `run CATALOG SCRIPT` or `run CATALOG SCRIPT ROWS`.
pub fn text_names(words: &[Txt]) -> Option<TextNames<'_>>
    ensures { option_map (λ names. record { catalog = names.catalog.now; script = names.script.now; rows = option_map (λ rows. rows.now) names.rows }) result ≡ named words.now }
{
    match words {
        [command, catalog, script] if command.as_str() == "run" => Some(TextNames {
            catalog,
            script,
            rows: None,
        }),
        [command, catalog, script, rows] if command.as_str() == "run" => Some(TextNames {
            catalog,
            script,
            rows: Some(rows),
        }),
        _ => None,
    }
}
