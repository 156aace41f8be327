// A PIXBLT of pixels over itself: definitions and laws, no code.
#![tactic(auto)]
