//! How many objects and links a text has.

ghost use Rattle.std.specs.Prelude.{◌≡◌, ◌≤◌, sum_by, if◌then◌else◌};
ghost use Rattle.knx_model.specs.Rules.{count_lines, is_device_line, is_object_line, links_in};
ghost use Rattle.project_check.specs.Counting.{named_objects, line_objects};

use knx_model::{Catalogue, INLINE, Statement, What};

/// Whether a statement is an `object` line.
fn is_object_line(what: &What<'_>) -> bool
    ensures { result ≡ is_object_line what.now }
{
    matches!(what, What::Object { .. })
}

/// The links of a `link` line, one for each of its groups; 0 of another line.
fn links_in(what: &What<'_>) -> usize
    ensures { result ≡ links_in what.now }
{
    match what {
        What::Link { groups, .. } => groups.as_slice().len(),
        _ => 0,
    }
}

/// The number of objects of the model of a name.
fn named_objects(catalogue: &Catalogue, name: &[u8]) -> u32
    ensures value { result ≡ named_objects catalogue.now name.now }
    ensures few { result ≤ 256 }
{
    if name == INLINE {
        return 0;
    }
    match catalogue.model_in(name) {
        Some(model) => model.objects.len() as u32,
        None => 0,
    }
}

/// The number of objects of the model that a `device` line names; 0 of another line.
fn line_objects(catalogue: &Catalogue, what: &What<'_>) -> u32
    ensures value { result ≡ line_objects catalogue.now what.now }
    ensures few { result ≤ (if is_device_line what.now then 256 else 0) }
{
    match what {
        What::Device { model, .. } => named_objects(catalogue, model.as_slice()),
        _ => 0,
    }
}

/// What the lines of a text have: `object` lines, links, and objects of the models that its `device` lines name.
#[derive(Clone, Copy)]
pub struct Totals {
    pub object_lines: usize,
    pub links: usize,
    pub model_objects: u32,
}

/// Counts what the lines have.
pub fn totals_of(catalogue: &Catalogue, statements: &[Statement<'_>]) -> Totals
    requires devices { count_lines is_device_line statements.now ≤ 255 }
    requires links { sum_by (λ s. links_in s.what) statements.now ≤ 134152192 }
    ensures objects { result.object_lines ≡ count_lines is_object_line statements.now }
    ensures links { result.links ≡ sum_by (λ s. links_in s.what) statements.now }
    ensures models { result.model_objects ≡ sum_by (λ s. line_objects catalogue.now s.what) statements.now }
    ensures few { result.model_objects ≤ 65280 }
{
    let mut object_lines = 0;
    let mut links = 0;
    let mut model_objects = 0;
    for statement in statements {
        object_lines += is_object_line(&statement.what) as usize;
        links += links_in(&statement.what);
        model_objects += line_objects(catalogue, &statement.what);
    }
    Totals {
        object_lines,
        links,
        model_objects,
    }
}
