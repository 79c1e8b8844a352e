// What was demanded, stated for a reader in specs/ and proved there from the layers below.
#![tactic(auto)]
