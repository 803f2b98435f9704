//! What comment lines do to a module, and that the lines that explain one are such.

ghost use Rattle.std.specs.Prelude.{◌≡◌, true};
ghost use Rattle.std.specs.List.{AllByRecursion, list_all};
ghost use Rattle.sap_check.specs.Checked.{tree_in};
ghost use Rattle.sap_text.specs.Blanks.{is_in_line};
ghost use Rattle.sap_explain.specs.Comments.{AreCommentLines, CommentsChangeNothing};
ghost use Rattle.sap_linker.specs.Given.{design_names, designs_of};
ghost use Rattle.sap_explain.specs.Explanation.{design_comments, level_comments, part_comments};

use sap_check::Checked;
use sap_lattice::lattice::Lattice;
use sap_linker::LinkedPart;
use sap_tree::whole::design_is_whole;

/// Comment lines before a text change nothing.
pub fn comments_change_nothing()
    ensures { CommentsChangeNothing }
{}

/// The lines of levels are comment lines.
pub fn levels_are_comments(lattice: &Lattice)
    ensures { AreCommentLines (level_comments lattice.now 0 lattice.now.names) }
{
    lattice.lawful();
}

/// The lines of a design are comment lines.
pub fn design_is_comments(part: &[u8], checked: &Checked)
    requires { list_all is_in_line part.now ≡ true }
    ensures { AreCommentLines (design_comments part.now (tree_in checked.now)) }
{
    design_is_whole(checked.design());
}

/// The lines of the parts of a system are comment lines.
pub fn parts_are_comments(parts: &[LinkedPart<'_>])
    requires { AllByRecursion (λ name. list_all is_in_line name ≡ true) (design_names (designs_of parts.now)) }
    ensures { AreCommentLines (part_comments (designs_of parts.now)) }
{
    for part in parts {
        design_is_comments(part.name.as_bytes(), part.checked);
    }
}
