//! What a module is written in.
use fast_check_source_files::files::name_of;
use fast_check_tables_diagnostics::parsed_source::MediaType;

// The first that a name ends with counts.
const ENDINGS: [(&str, MediaType); 11] = [
    (".d.ts", MediaType::Dts),
    (".d.mts", MediaType::Dmts),
    (".d.cts", MediaType::Dcts),
    (".ts", MediaType::TypeScript),
    (".mts", MediaType::Mts),
    (".cts", MediaType::Cts),
    (".tsx", MediaType::Tsx),
    (".js", MediaType::JavaScript),
    (".mjs", MediaType::Mjs),
    (".cjs", MediaType::Cjs),
    (".jsx", MediaType::Jsx),
];

// Whether a file has the declarations of one with another ending than those of code, as `a.d.css.ts` of `a.css`.
fn declares_other(name: &str) -> bool {
    name.ends_with(".ts") && name_of(name).contains(".d.")
}

/// What a file is written in, by its name.
pub fn media_type(name: &str) -> MediaType {
    if declares_other(name) {
        return MediaType::Dts;
    }
    for (ending, media_type) in ENDINGS {
        if name.ends_with(ending) {
            return media_type;
        }
    }
    MediaType::Unknown
}
