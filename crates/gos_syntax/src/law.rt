// The laws of parsing: the answers of `parse` exclude one another, and the grammar can be read without a look back.

ghost use Rattle.std.specs.Prelude.{ℕ, List, [], ◌∷◌};
ghost use Rattle.gos_lex.specs.declared.token.Token.{Token as AToken};
ghost use Rattle.gos_syntax.specs.OneAnswer.{FaultsExcludeModules, HasOneFault, HasOneTree};
ghost use Rattle.gos_syntax.specs.Items.{Item};
ghost use Rattle.gos_syntax.specs.Modules.{SeenModule};
ghost use Rattle.gos_syntax.specs.ModuleTrees.{ModuleTree};
ghost use Rattle.gos_syntax.specs.ParsedModules.{IsModule};
ghost use Rattle.gos_syntax.specs.ReadsBack.{ReadsBack, PrintsBack};
ghost use Rattle.gos_syntax.specs.Symbols.{Part, Module};
ghost use Rattle.gos_syntax.specs.Spelling.{Spells};

/// The tokens of a text have at most one answer: they are a module, or they have their one fault. The function does
/// nothing; its contract is the law.
pub fn one_answer()
    ensures refusal { (text : List ℕ) (tokens : List AToken) → FaultsExcludeModules text tokens }
    ensures tree { (items : List Item) → HasOneTree items }
    ensures fault { (text : List ℕ) (tokens : List AToken) → HasOneFault text tokens }
{}

/// The grammar, and the one without rules that begin with themselves, have the same modules. The function does nothing;
/// its contract is the law.
pub fn one_grammar()
    ensures spelled { (items : List Item) (made : ModuleTree) → IsModule items made → Spells items (Part Module ∷ []) 0 }
    ensures derived { (items : List Item) → Spells items (Part Module ∷ []) 0 → (made : ModuleTree) × IsModule items made }
{}

/// The tokens with which a module is printed are that module, places aside, and so are the tokens of its printed text.
/// The function does nothing; its contract is the law.
pub fn printed_module()
    ensures tokens { (items : List Item) (made : ModuleTree) → ReadsBack items made }
    ensures text { (made : SeenModule) → PrintsBack made }
{}
