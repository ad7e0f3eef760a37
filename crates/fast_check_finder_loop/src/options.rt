//! What a caller hands to the finder.

use fast_check_finder_demands::facts::GraphFacts;
use fast_check_tables_cache::FastCheckCache;
use fast_check_tables_packages::JsrUrlProvider;
use std::alloc::Global;

/// What a caller lends for a whole search: what is known of modules and packages, the seed of the keys of the cache, and a provider of URLs and a cache of
/// these types.
#[derive(Clone, Copy)]
pub struct FinderOptions<'a, P, C> {
    pub alloc: Global,
    pub facts: GraphFacts<'a>,
    pub seed: &'a str,
    pub provider: P,
    pub cache: C,
}

/// The same with any provider and, perhaps, any cache.
pub type Lent<'a, 'o> = FinderOptions<'a, &'o dyn JsrUrlProvider, Option<&'o dyn FastCheckCache>>;
