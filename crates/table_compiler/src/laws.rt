//! What the tables of a configuration tell, whoever made them, and what its links are.

ghost use Rattle.std.specs.Prelude.{◌≡◌, ℕ, ◌↔◌, Option, List as Seq, Contains};
ghost use Rattle.knx_model.specs.declared.address.GroupAddr.{GroupAddr};
ghost use Rattle.knx_model.specs.declared.config.Config.{Config};
ghost use Rattle.knx_model.specs.declared.config.Image.{Image};
ghost use Rattle.knx_model.specs.declared.config.LinkSpec.{LinkSpec};
ghost use Rattle.knx_model.specs.Meaning.{links_of, IsLinkOf};
ghost use Rattle.knx_model.specs.Tables.{StandsFor};

/// A configuration has just one image.
pub fn one_image()
    ensures { (config : Config) (one other : Image) → StandsFor one config → StandsFor other config → one ≡ other }
{}

/// A link is one of a device's exactly where a line says it, and it sends exactly where its object sends to its group.
pub fn links_said()
    ensures { (sends : ℕ → Option GroupAddr) (lines : Seq (ℕ × GroupAddr)) (link : LinkSpec) → Contains (links_of sends lines) link ↔ IsLinkOf sends lines link }
{}
