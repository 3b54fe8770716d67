//! What the tables say where they stand for a configuration.

ghost use Rattle.std.specs.Prelude.{◌≡◌, ℕ, ◌≤◌, ◌↔◌, IsTrue, Contains, Some, None, false};
ghost use Rattle.knx_model.specs.declared.config.Config.{Config};
ghost use Rattle.knx_model.specs.declared.config.Image.{Image};
ghost use Rattle.knx_model.specs.declared.config.LinkSpec.{LinkSpec};
ghost use Rattle.knx_model.specs.declared.script.GroupService.{GroupService};
ghost use Rattle.knx_model.specs.declared.script.GroupService.TheVariants.{Read};
ghost use Rattle.device_tables.specs.Lowest.{IsLowest};
ghost use Rattle.knx_model.specs.Tables.{StandsFor, raw_of};
ghost use Rattle.knx_model.specs.Acts.{IsInRange, may_answer, object_in_table, is_written, answerer, acts_written, acts_answerer, is_linked_in};

/// A telegram acts by the tables as by the configuration that they stand for: the same objects take its value, and the same one
/// answers it.
pub fn agrees()
    ensures written { (config : Config) (image : Image) → StandsFor image config → IsInRange config → (group object : ℕ) (service : GroupService) → is_written image group service object ≡ acts_written config group service object }
    ensures answers { (config : Config) (image : Image) → StandsFor image config → IsInRange config → (group : ℕ) (service : GroupService) → answerer image group service ≡ acts_answerer config group service }
{}

/// By the tables an object is linked to a group exactly where a link of the configuration has both.
pub fn linked_exactly()
    ensures { (config : Config) (image : Image) → StandsFor image config → IsInRange config → (group object : ℕ) → 1 ≤ object → object ≤ 255 → IsTrue (is_linked_in image.addr image.assoc group object) ↔ ((link : LinkSpec) × Contains config.links link × (link.object ≡ object) × (raw_of link ≡ group)) }
{}

/// To a read the lowest of the objects answers that are linked to the group, communicate and can be read; none where there is none.
pub fn the_lowest_answers()
    ensures lowest { (image : Image) (group object : ℕ) → answerer image group Read ≡ Some object → IsLowest (may_answer (is_linked_in image.addr image.assoc group) (object_in_table image.objs)) object }
    ensures none { (image : Image) (group : ℕ) → answerer image group Read ≡ None → (object : ℕ) → 1 ≤ object → object ≤ 255 → may_answer (is_linked_in image.addr image.assoc group) (object_in_table image.objs) object ≡ false }
{}
