//! Which names each module answers, also by its re-exports of all.
use crate::circles::circles_of;
use fast_check_source_input::Parsed;
use fast_check_tables_symbols::{ModuleTables, ReExportAllNode};
use std::alloc::{AllocError, Global};
use std::collections::{BTreeMap, BTreeSet};
use url::Url;

/// The modules by their places in the order of their URLs.
#[derive(Drop)]
pub struct World {
    places: BTreeMap<Url, usize>,
    // The names that each module exports itself.
    own: Vec<Vec<String>>,
    // The modules whose names each module exports again.
    targets: Vec<Vec<usize>>,
    // The circle of re-exports that each module lies in. One leads to modules of its own circle and of later ones alone.
    circles: Vec<usize>,
}

// The names that a module exports itself.
fn own_names(alloc: Global, tables: &ModuleTables) -> Result<Vec<String>, AllocError> {
    let mut names = Vec::new(alloc);
    let Some(module) = tables.symbols.first() else {
        return Ok(names);
    };
    for place in 0..module.exports.len() {
        if let Some((name, _)) = module.exports.at(place) {
            names.push(String::from_str(alloc, name)?)?;
        }
    }
    Ok(names)
}

// The place of the module that a re-export of all leads to.
fn target_of(
    places: &BTreeMap<Url, usize>,
    resolved: Option<&BTreeMap<String, Url>>,
    node: &ReExportAllNode,
) -> Option<usize> {
    let url = resolved?.get(node.specifier.as_str())?;
    places.get(url).copied()
}

// The places of the modules whose names a module exports again.
fn targets_of(
    alloc: Global,
    places: &BTreeMap<Url, usize>,
    resolved: Option<&BTreeMap<String, Url>>,
    tables: &ModuleTables,
) -> Result<Vec<usize>, AllocError> {
    let mut targets = Vec::new(alloc);
    for node in tables.re_export_all_nodes.iter() {
        if let Some(target) = target_of(places, resolved, node) {
            targets.push(target)?;
        }
    }
    Ok(targets)
}

fn places_of(
    alloc: Global,
    modules: &BTreeMap<Url, Parsed>,
) -> Result<BTreeMap<Url, usize>, AllocError> {
    let mut places = BTreeMap::new(alloc);
    for (place, url) in modules.keys().enumerate() {
        let _ = places.insert(url.clone()?, place)?;
    }
    Ok(places)
}

/// What modules export themselves, and whose names they export again.
pub fn world_of(
    alloc: Global,
    modules: &BTreeMap<Url, Parsed>,
    resolutions: &BTreeMap<Url, BTreeMap<String, Url>>,
) -> Result<World, AllocError> {
    let places = places_of(alloc, modules)?;
    let mut own = Vec::new(alloc);
    let mut targets = Vec::new(alloc);
    for (url, module) in modules.iter() {
        let resolved = resolutions.get(url);
        own.push(own_names(alloc, &module.tables)?)?;
        targets.push(targets_of(alloc, &places, resolved, &module.tables)?)?;
    }
    let circles = circles_of(alloc, targets.as_slice())?;
    Ok(World {
        places,
        own,
        targets,
        circles,
    })
}

/// Which names are asked for: those of a set, or all.
pub type Asked<'a> = Option<BTreeSet<&'a str>>;

fn is_asked<'a>(asked: &Asked<'a>, name: &'a str) -> bool {
    match asked {
        Some(names) => names.contains(&name),
        None => true,
    }
}

fn add_all<'a>(from: &BTreeSet<&'a str>, out: &mut BTreeSet<&'a str>) -> Result<(), AllocError> {
    for name in from.iter() {
        let _ = out.insert(*name)?;
    }
    Ok(())
}

fn at<T>(items: &[Vec<T>], place: usize) -> &[T] {
    match items.get(place) {
        Some(found) => found.as_slice(),
        None => &[],
    }
}

// The names that the modules of each circle export again for others.
type Shown<'a> = BTreeMap<usize, BTreeSet<&'a str>>;

impl World {
    fn circle(&self, place: usize) -> usize {
        match self.circles.get(place) {
            Some(circle) => *circle,
            None => place,
        }
    }

    // The modules of each circle.
    fn members(&self, alloc: Global) -> Result<BTreeMap<usize, Vec<usize>>, AllocError> {
        let mut members: BTreeMap<usize, Vec<usize>> = BTreeMap::new(alloc);
        for (place, circle) in self.circles.iter().enumerate() {
            match members.get_mut(circle) {
                Some(found) => found.push(place)?,
                None => {
                    let mut own = Vec::new(alloc);
                    own.push(place)?;
                    let _ = members.insert(*circle, own)?;
                }
            }
        }
        Ok(members)
    }

    // Adds the names that a module exports itself and that are asked for. `default` is exported again by no other module.
    fn add_own<'a>(
        &'a self,
        asked: &Asked<'a>,
        place: usize,
        is_other: bool,
        out: &mut BTreeSet<&'a str>,
    ) -> Result<(), AllocError> {
        for name in at(self.own.as_slice(), place) {
            let name = name.as_str();
            if is_asked(asked, name) && !(is_other && name == "default") {
                let _ = out.insert(name)?;
            }
        }
        Ok(())
    }

    // Adds what the later circles show that a module leads to, each once.
    fn add_later<'a>(
        &'a self,
        shown: &Shown<'a>,
        place: usize,
        seen: &mut BTreeSet<usize>,
        out: &mut BTreeSet<&'a str>,
    ) -> Result<(), AllocError> {
        for target in at(self.targets.as_slice(), place) {
            let later = self.circle(*target);
            if seen.insert(later)?
                && let Some(names) = shown.get(&later)
            {
                add_all(names, out)?;
            }
        }
        Ok(())
    }

    // The names that the modules of each circle export again for others, the last circle first.
    fn shown<'a>(&'a self, alloc: Global, asked: &Asked<'a>) -> Result<Shown<'a>, AllocError> {
        let mut shown = BTreeMap::new(alloc);
        for (circle, members) in self.members(alloc)?.iter().rev() {
            let mut names = BTreeSet::new(alloc);
            let mut seen = BTreeSet::new(alloc);
            for place in members.iter() {
                self.add_own(asked, *place, true, &mut names)?;
                self.add_later(&shown, *place, &mut seen, &mut names)?;
            }
            let _ = shown.insert(*circle, names)?;
        }
        Ok(shown)
    }

    // The places of the modules whose names others export again.
    fn exported_again(&self, alloc: Global) -> Result<BTreeSet<usize>, AllocError> {
        let mut found = BTreeSet::new(alloc);
        for targets in self.targets.iter() {
            for target in targets.iter() {
                let _ = found.insert(*target)?;
            }
        }
        Ok(found)
    }

    // The names that a module answers, with the module itself.
    fn answered<'a>(
        &'a self,
        alloc: Global,
        asked: &Asked<'a>,
        shown: &Shown<'a>,
        place: usize,
        url: &Url,
    ) -> Result<Vec<(String, Url)>, AllocError> {
        let mut names = BTreeSet::new(alloc);
        self.add_own(asked, place, false, &mut names)?;
        if let Some(others) = shown.get(&self.circle(place)) {
            for name in others.iter() {
                let _ = names.insert(*name)?;
            }
        }
        let mut made = Vec::new(alloc);
        for name in names.iter() {
            made.push((String::from_str(alloc, *name)?, url.clone()?))?;
        }
        Ok(made)
    }

    /// The names that each module answers, with the module itself, in the order of the modules. Where names are `asked` for, only these, and only of
    /// modules whose names others export again: no other is looked up.
    pub fn all_answered<'a>(
        &'a self,
        alloc: Global,
        asked: &Asked<'a>,
    ) -> Result<Vec<Vec<(String, Url)>>, AllocError> {
        let shown = self.shown(alloc, asked)?;
        let again = self.exported_again(alloc)?;
        let mut all = Vec::new(alloc);
        for (url, place) in self.places.iter() {
            let names = if asked.is_none() || again.contains(place) {
                self.answered(alloc, asked, &shown, *place, url)?
            } else {
                Vec::new(alloc)
            };
            all.push(names)?;
        }
        Ok(all)
    }

    /// The re-exports of all of a module. Since the first one that answers a name is followed, those that lead back to the module come last.
    pub fn in_order(
        &self,
        alloc: Global,
        module: &Url,
        resolved: Option<&BTreeMap<String, Url>>,
        nodes: Vec<ReExportAllNode>,
    ) -> Result<Vec<ReExportAllNode>, AllocError> {
        let own = match self.places.get(module) {
            Some(place) => self.circle(*place),
            None => usize::MAX,
        };
        let mut first = Vec::new(alloc);
        let mut last = Vec::new(alloc);
        for node in nodes {
            let leads_back = match target_of(&self.places, resolved, &node) {
                Some(target) => self.circle(target) == own,
                None => false,
            };
            if leads_back {
                last.push(node)?;
            } else {
                first.push(node)?;
            }
        }
        first.append(&mut last)?;
        Ok(first)
    }
}
