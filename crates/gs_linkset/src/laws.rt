ghost use Rattle.std.specs.Prelude.{◌≡◌, List, Ok, true};
ghost use Rattle.std.specs.List.{list_all};
ghost use Rattle.gs_linkset.specs.Answers.{read_answer};
ghost use Rattle.gs_linkset.specs.LinkShapes.{is_context, is_target};
ghost use Rattle.gs_linkset.specs.WrittenTrees.{target_text, written};
ghost use Rattle.gs_linkset.specs.declared.link_types.Context.{Context};
ghost use Rattle.gs_linkset.specs.declared.link_types.Target.{Target};

/// States that a written document reads as itself.
pub fn written_is_read()
    ensures { (contexts : List Context) → list_all is_context contexts ≡ true
        → read_answer (written contexts) ≡ Ok contexts }
{}

/// States that two targets of the shape with one text are equal.
pub fn one_text_each()
    ensures { (a b : Target) → is_target a ≡ true → is_target b ≡ true
        → target_text a ≡ target_text b → a ≡ b }
{}
